// How sharp an answer is, and how the passes of a solver stand: first passes at half the opponent's precision until one
// finds nothing, then one at full precision, then passes at half again until one finds nothing.
ghost use Rattle.std.specs.Prelude.{◌≡◌, eqb};
ghost use Rattle.separation.specs.Stages.{precision_at};
ghost use Rattle.quasi_level.specs.Standing.{stage_number, Began, AfterFound, AfterNothing, LevelEnded};

// An answer keeps all dominions of its own player, and drops all of the other's, whatever their size.
#[derive(Clone, Copy)]
pub struct Sharp {
    pub keeps: bool,
    pub drops: bool,
}

// What the next pass is.
#[derive(Clone, Copy, Debug, PartialEq, Eq)]
pub enum Stage {
    // One of the first passes.
    Half,
    // The pass at full precision.
    Full,
    // One of the last passes.
    HalfAgain,
    Done,
}

// The stage, and how sharp what is left of V is.
#[derive(Clone, Copy)]
pub struct Passes {
    pub stage: Stage,
    pub keeps: bool,
    pub drops: bool,
}

impl Passes {
    // At precision 0 there is nothing to find, so without half a precision the pass at full precision is the first.
    pub fn new(half: usize) -> Passes
        ensures { Began half result }
    {
        let stage = if half == 0 { Stage::Full } else { Stage::Half };
        Passes {
            stage,
            keeps: true,
            drops: false,
        }
    }

    pub fn is_done(self) -> bool
        ensures { result ≡ eqb (stage_number self.stage) 3 }
    {
        matches!(self.stage, Stage::Done)
    }

    // The precision of the next pass.
    pub fn precision(self, half: usize, full: usize) -> usize
        ensures { result ≡ precision_at (stage_number self.stage) half full }
    {
        match self.stage {
            Stage::Full => full,
            _ => half,
        }
    }

    // After a pass that found something, the last passes follow the one at full precision.
    pub fn after_found(self, sub: Sharp, half: usize) -> Passes
        ensures { AfterFound self sub half result }
    {
        let keeps = self.keeps && sub.drops;
        let stage = match self.stage {
            Stage::Half => Stage::Half,
            _ if half == 0 => Stage::Done,
            _ => Stage::HalfAgain,
        };
        Passes {
            stage,
            keeps,
            drops: false,
        }
    }

    // After a pass that found nothing: where its answer kept all of the opponent's dominions, none is left.
    pub fn after_nothing(self, sub: Sharp, half: usize) -> Passes
        ensures { AfterNothing self sub half result }
    {
        let stage = match self.stage {
            _ if sub.keeps => Stage::Done,
            Stage::Half => Stage::Full,
            _ => Stage::Done,
        };
        Passes {
            stage,
            drops: sub.keeps,
            ..self
        }
    }

    // How sharp what is left of V is at the end: a precision that was cut to the size of V was full.
    pub fn sharpness(self, mine: usize, full: usize, size: usize) -> Sharp
        ensures { LevelEnded self mine full size result }
    {
        Sharp {
            keeps: self.keeps || mine == size,
            drops: self.drops || full == size,
        }
    }
}
