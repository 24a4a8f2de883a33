//! What the signs before a mask's leaf come to.
ghost use Rattle.std.specs.Prelude.{◌≡◌, ◌≤ℤ◌, pos, negsuc, false};
ghost use Rattle.edit_terms.specs.declared.mask.Sign.TheVariants.{Not, Below, Above};
ghost use Rattle.plain_terms.specs.Probes.{probe_after, IsProbe, IsProbeSoFar};

use edit_terms::{Pos, Sign};

/// Whether the answer of a leaf is turned round, and at which height it is asked, which may lie far below
/// or above the world.
#[derive(Clone, Copy, Debug)]
pub(crate) struct Probe {
    pub(crate) is_negated: bool,
    pub(crate) height: i128,
}

/// What these signs, the outermost first, come to at a position.
#[tactic(auto, using(crate::proofs::ProbeLemmas::probe_start, crate::proofs::ProbeLemmas::probe_more))]
pub(crate) fn probe_of(signs: &[Sign], p: &Pos) -> Probe
    ensures { IsProbe signs.now p.now result }
{
    let mut probe = level(p);
    for sign in signs {
        probe = after(sign, &probe);
    }
    probe
}

/// The probe of a position itself.
fn level(p: &Pos) -> Probe
    ensures upright { result.is_negated ≡ false }
    ensures height { result.height ≡ p.now.y }
    ensures low { negsuc 2147483647 ≤ℤ result.height }
    ensures high { result.height ≤ℤ pos 2147483648 }
{
    Probe {
        is_negated: false,
        height: i128::from(p.y),
    }
}

/// The probe behind one sign more.
fn after(sign: &Sign, probe: &Probe) -> Probe
    requires low { negsuc 1267650600228229401496703205375 ≤ℤ probe.now.height }
    requires high { probe.now.height ≤ℤ pos 1267650600228229401496703205376 }
    ensures { result ≡ probe_after sign.now probe.now }
{
    match sign {
        Sign::Not => turned_round(probe),
        Sign::Below => lower(probe),
        Sign::Above => higher(probe),
    }
}

fn turned_round(probe: &Probe) -> Probe
    ensures { result ≡ probe_after Not probe.now }
{
    Probe {
        is_negated: !probe.is_negated,
        ..*probe
    }
}

fn lower(probe: &Probe) -> Probe
    requires { negsuc 1267650600228229401496703205375 ≤ℤ probe.now.height }
    ensures { result ≡ probe_after Below probe.now }
{
    Probe {
        height: probe.height - 1,
        ..*probe
    }
}

fn higher(probe: &Probe) -> Probe
    requires { probe.now.height ≤ℤ pos 1267650600228229401496703205376 }
    ensures { result ≡ probe_after Above probe.now }
{
    Probe {
        height: probe.height + 1,
        ..*probe
    }
}
