//! What is kept beside a picture that lags behind, so that a run of a few dots and a look at the NMI line need no more.

ghost use Rattle.std.specs.Prelude.{◌≡◌, ◌≤◌, ◌+◌, ◌%◌, ◌^◌};
ghost use Rattle.nj_dots.specs.Screen.{IsPlaced};
ghost use Rattle.nj_catchup.specs.Limit.{limit_of, pending_of, IsLull};

use nj_dots::Screen;

/// The dots before the next event, over which the NMI line stays as it is. Some of them are pending.
#[derive(Clone, Copy)]
pub struct Lull {
    /// How many dots may be pending.
    pub limit: u32,
    /// How many more than are pending now.
    pub spare: u32,
    /// The level of the NMI line.
    pub line: bool,
}

impl Lull {
    /// The lull of a picture of which no dot is pending.
    pub fn of(screen: &Screen) -> Lull
        requires { IsPlaced screen.now.position }
        ensures lull { IsLull result screen.now }
        ensures pending { pending_of result ≡ 0 }
    {
        let limit = limit(screen);
        Lull {
            limit,
            spare: limit,
            line: screen.nmi_line(),
        }
    }

    /// How many dots are pending.
    pub fn pending(&self) -> u32
        requires { self.now.spare ≤ self.now.limit }
        ensures { result ≡ pending_of self.now }
    {
        self.limit - self.spare
    }

    /// Gives back so many spare dots, which were taken though there were not as many.
    #[cold]
    #[inline(never)]
    pub fn give_back(&mut self, dots: u32)
        ensures { self.new ≡ record self.old { spare = (self.old.spare + dots) % 2 ^ 32 } }
    {
        self.spare = self.spare.wrapping_add(dots);
    }
}

// The limit of pending dots.
#[tactic(auto, unfolding(crate::specs::Limit::limit_of))]
fn limit(screen: &Screen) -> u32
    requires { IsPlaced screen.now.position }
    ensures { result ≡ limit_of screen.now }
{
    if screen.ended {
        0
    } else {
        screen.dots_to_event().saturating_sub(1)
    }
}
