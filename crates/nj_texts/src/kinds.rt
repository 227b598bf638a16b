//! What is refused.

ghost use Rattle.std.specs.Prelude.{◌≡◌};
ghost use Rattle.nj_texts.specs.Kinds.{kind_name, kind_status};

/// What a refusal is of: a kind of file, or the plan of a search.
#[derive(Clone, Copy)]
pub enum Kind {
    Cartridge,
    Script,
    Plan,
    Movie,
    Saved,
    Source,
}

impl Kind {
    /// Its name in a line of refusal.
    pub fn name(self) -> &'static str
        ensures { result.now ≡ kind_name self }
    {
        match self {
            Kind::Cartridge => "cartridge",
            Kind::Script => "script",
            Kind::Plan => "plan",
            Kind::Movie => "movie",
            Kind::Saved => "saved",
            Kind::Source => "asm",
        }
    }

    /// The exit status of a command that ends with such a refusal.
    pub fn status(self) -> u8
        ensures { result ≡ kind_status self }
    {
        match self {
            Kind::Cartridge => 4,
            Kind::Script | Kind::Plan => 5,
            Kind::Movie => 6,
            Kind::Saved => 11,
            Kind::Source => 12,
        }
    }
}
