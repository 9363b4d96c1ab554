//! The worked figures of docs/figures.md that are proved; of the equations, the order of work by
//! examples, their scope, and the exchange of the two ports.
#![tactic(auto)]

ghost use Rattle.std.specs.Prelude.{◌≡◌, length};
ghost use Rattle.two_port.specs.Exchange.{Exchange};
ghost use Rattle.figures.specs.Scope.{Scope};
ghost use Rattle.figures.specs.Order.{Order};
ghost use Rattle.figures.specs.Table.{AllRight, table};

/// How many figures the table has. Each is right.
#[tactic(auto, using(crate::proofs::Worked::figures_right, crate::proofs::Worked::order_stands, two_port::proofs::Exchanges::exchange_stands))]
pub fn proved() -> usize
    ensures count { result ≡ length table }
    ensures right { AllRight table }
    ensures order { Order }
    ensures scope { Scope }
    ensures exchange { Exchange }
{
    10
}
