//! Numbers drawn from a state of 64 bits.

ghost use Rattle.std.specs.Prelude.{◌≡◌, ◌<◌};
ghost use Rattle.demo_work.specs.Plan.{drawn, below};

/// Draws, of which each is made of the state that the one before left.
#[derive(Debug, Drop)]
pub(crate) struct Draws {
    pub state: u64,
}

/// The state after this one: modulo 2^64, 6364136223846793005 times this and 1442695040888963407 more.
#[tactic(auto, unfolding(crate::specs::Plan::drawn))]
fn drawn(state: u64) -> u64
    ensures { result ≡ drawn state }
{
    let next = u128::from(state) * 6_364_136_223_846_793_005 + 1_442_695_040_888_963_407;
    (next % (1 << 64)) as u64
}

/// What the highest 31 bits of a state leave, divided by a limit.
#[tactic(auto, unfolding(crate::specs::Plan::below))]
fn below(limit: u64, state: u64) -> u64
    requires { 0 < limit }
    ensures value { result ≡ below limit state }
    ensures small { result < limit }
{
    state / (1 << 33) % limit
}

impl Draws {
    /// Draws a number below a limit.
    pub fn below(&mut self, limit: u64) -> u64
        requires { 0 < limit }
        ensures state { self.new.state ≡ drawn self.old.state }
        ensures value { result ≡ below limit (drawn self.old.state) }
        ensures small { result < limit }
    {
        self.state = drawn(self.state);
        below(limit, self.state)
    }
}
