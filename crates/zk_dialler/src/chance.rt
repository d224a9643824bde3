//! Random numbers from a seed.

ghost use Rattle.std.specs.Prelude.{◌≡◌, ◌<◌};
ghost use Rattle.zk_dialler.specs.Chances.{next_state, number_below};

/// The factor and the summand by which Knuth's MMIX makes one number of the one before.
const FACTOR: u64 = 6_364_136_223_846_793_005;

const SUMMAND: u64 = 1_442_695_040_888_963_407;

/// What the lower bits of a state are cut off by: they are less random than the higher ones.
const CUT: u64 = 8_589_934_592;

/// Random numbers, each made of the one before. They keep no secret.
#[derive(Clone, Copy)]
pub struct Chance {
    pub(crate) state: u64,
}

impl Chance {
    /// Those of a seed.
    pub fn new(seed: u64) -> Chance
        ensures { result.state ≡ seed }
    {
        Chance { state: seed }
    }

    /// Goes on to the next number.
    pub(crate) fn advance(&mut self)
        ensures { self.new.state ≡ next_state self.old.state }
    {
        self.state = self.state.wrapping_mul(FACTOR).wrapping_add(SUMMAND);
    }

    /// The number, below this one.
    pub(crate) fn below(self, bound: u64) -> u64
        requires { 0 < bound }
        ensures exact { result ≡ number_below bound self.state }
        ensures below { result < bound }
    {
        self.state / CUT % bound
    }
}
