ghost use Rattle.std.specs.Prelude.{◌≡◌, take, unwrap_or};
ghost use Rattle.run_ports.specs.Count.{count_after};
ghost use Rattle.run_ports.specs.FailPlan.{planned};

/// A call that is to fail.
#[derive(Clone, Copy, Debug, PartialEq, Eq)]
pub struct Fail {
    /// The number of the call, counted from 0.
    pub call: u32,
    /// How many of its bytes a failing save or put takes, all of them where there are fewer. `None`
    /// leaves what was there.
    pub kept: Option<u32>,
}

impl Fail {
    /// What a failing put takes of these bytes.
    pub(crate) fn kept_of<'a>(&self, bytes: &'a [u8]) -> &'a [u8]
        ensures { result.now ≡ take (unwrap_or self.now.kept 0) bytes.now }
    {
        let kept = self.kept.unwrap_or(0) as usize;
        &bytes[..kept.min(bytes.len())]
    }
}

/// Which calls of an object in memory are to fail, and how many calls it had.
#[derive(Drop)]
pub(crate) struct FailPlan {
    fails: Vec<Fail>,
    calls: u64,
}

impl FailPlan {
    pub(crate) fn new(fails: Vec<Fail>) -> FailPlan
        ensures fails { result.fails.items ≡ fails.items }
        ensures calls { result.calls ≡ 0 }
    {
        FailPlan { fails, calls: 0 }
    }

    /// Counts a call, and says what is planned for it. The count stays at its last value.
    pub(crate) fn next_call(&mut self) -> Option<Fail>
        ensures planned { result ≡ planned self.old.fails.items self.old.calls }
        ensures fails { self.new.fails.items ≡ self.old.fails.items }
        ensures calls { self.new.calls ≡ count_after self.old.calls }
    {
        let fail = planned_fail(&self.fails, self.calls);
        self.calls = self.calls.saturating_add(1);
        fail
    }
}

/// The first entry that names the call.
fn planned_fail(fails: &[Fail], call: u64) -> Option<Fail>
    ensures { result ≡ planned fails.now call }
{
    fails
        .iter()
        .copied()
        .find(|fail| u64::from(fail.call) == call)
}
