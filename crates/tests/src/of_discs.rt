//! What the calls promise of discs: their contracts again, of the numbers of discs in place of any
//! values. Proved, and run by no test.
ghost use Rattle.std.specs.Prelude.{◌≡◌, IfOk};
ghost use Rattle.exact.specs.Numbers.{exacts, invert};
ghost use Rattle.enclosure.specs.Discs.{Holds, discs, origin};
ghost use Rattle.enclosure.specs.Fitted.{answer};
ghost use Rattle.disc.specs.Meaning.{meaning};
ghost use Rattle.one_port.specs.Equations as OnePort;
ghost use Rattle.one_port.specs.Truth as OnePortTruth;
ghost use Rattle.two_port.specs.Equations as TwoPort;
ghost use Rattle.two_port.specs.Truth as TwoPortTruth;
ghost use Rattle.one_port.specs.Mapped.{sol, terms};
ghost use Rattle.two_port.specs.Mapped.{parameters, readings, standards, twelve};

use disc::Disc;
use enclosure::Refusal;
use one_port::{Sol, ThreeTerms};
use stage::StageRefusal;
use two_port::{Readings, SParameters, Standards, TwelveTerms};

fn solve_one_port(listed: Sol<Disc>, read: Sol<Disc>) -> Result<ThreeTerms<Disc>, Refusal>
    ensures value { answer (terms meaning) result ≡ OnePort.solved discs (sol meaning listed) (sol meaning read) }
    ensures truth { IfOk result (λ t. OnePortTruth.TermsTrue discs exacts invert Holds (sol meaning listed) (sol meaning read) (terms meaning t)) }
{
    ThreeTerms::solve(listed, read)
}

fn correct_one_port(t: ThreeTerms<Disc>, raw: Disc) -> Result<Disc, Refusal>
    ensures value { answer meaning result ≡ OnePort.corrected discs (terms meaning t) (meaning raw) }
    ensures truth { IfOk result (λ d. OnePortTruth.DeviceTrue discs exacts invert Holds (terms meaning t) (meaning raw) (meaning d)) }
    ensures round_trip { IfOk result (λ d. OnePortTruth.ComesBack discs exacts invert Holds (terms meaning t) (meaning raw) (meaning d)) }
{
    t.correct(raw)
}

fn embed_one_port(t: ThreeTerms<Disc>, actual: Disc) -> Result<Disc, Refusal>
    ensures value { answer meaning result ≡ OnePort.embedded discs (terms meaning t) (meaning actual) }
    ensures truth { IfOk result (λ d. OnePortTruth.RawTrue discs exacts invert Holds (terms meaning t) (meaning actual) (meaning d)) }
{
    t.embed(actual)
}

fn solve_two_ports(
    listed: Standards<Disc>,
    read: Readings<Disc>,
) -> Result<TwelveTerms<Disc>, StageRefusal>
    ensures value { answer (twelve meaning) result ≡ TwoPort.solved discs origin (standards meaning listed) (readings meaning read) }
    ensures truth { IfOk result (λ t. TwoPortTruth.TermsTrue discs exacts invert Holds (standards meaning listed) (readings meaning read) (twelve meaning t)) }
{
    TwelveTerms::solve(listed, read)
}

fn correct_two_ports(
    t: TwelveTerms<Disc>,
    raw: SParameters<Disc>,
) -> Result<SParameters<Disc>, StageRefusal>
    ensures value { answer (parameters meaning) result ≡ TwoPort.corrected discs (twelve meaning t) (parameters meaning raw) }
    ensures truth { IfOk result (λ s. TwoPortTruth.DeviceTrue discs exacts invert Holds (twelve meaning t) (parameters meaning raw) (parameters meaning s)) }
    ensures round_trip { IfOk result (λ s. TwoPortTruth.ComesBack discs exacts invert Holds (twelve meaning t) (parameters meaning raw) (parameters meaning s)) }
{
    t.correct(raw)
}

fn embed_two_ports(
    t: TwelveTerms<Disc>,
    actual: SParameters<Disc>,
) -> Result<SParameters<Disc>, StageRefusal>
    ensures value { answer (parameters meaning) result ≡ TwoPort.embedded discs (twelve meaning t) (parameters meaning actual) }
    ensures truth { IfOk result (λ s. TwoPortTruth.RawTrue discs exacts invert Holds (twelve meaning t) (parameters meaning actual) (parameters meaning s)) }
{
    t.embed(actual)
}
