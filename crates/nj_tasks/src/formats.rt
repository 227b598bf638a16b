//! The kinds of file that commands read.

ghost use Rattle.std.specs.Prelude.{◌≤◌, ◌^◌, length};
ghost use Rattle.nj_saved.specs.Ranges.{Fits, IsInRange};
ghost use Rattle.nj_tasks.specs.Formats.{cart_format, hashed, movie_format, saved_format, script_format, source_format};

use crate::files::{Bounds, Format};
use crate::stops::{Stop, refused};
use nj_asm::{AsmRefused, Assembled, assemble};
use nj_bytes::fnv;
use nj_ines::{Cart, CartRefused};
use nj_movie::{Movie, MovieRefused, a_text_says_its_pads, read_movie};
use nj_saved::{Saved, SavedRefused, read_saved};
use nj_script::{Script, ScriptRefused};
use nj_texts::Kind;
use std::alloc::Global;

/// Of cartridges.
pub const CART: Bounds = Bounds {
    kind: Kind::Cartridge,
    limit: 1_048_576,
    too_long: 9,
};

/// Of scripts.
pub const SCRIPT: Bounds = Bounds {
    kind: Kind::Script,
    limit: 1_048_576,
    too_long: 10,
};

/// Of movies.
pub const MOVIE: Bounds = Bounds {
    kind: Kind::Movie,
    limit: 16_777_216,
    too_long: 5,
};

/// Of sources.
pub const SOURCE: Bounds = Bounds {
    kind: Kind::Source,
    limit: 1_048_576,
    too_long: 8,
};

/// Of saved searches.
pub const SAVED: Bounds = Bounds {
    kind: Kind::Saved,
    limit: 805_306_368,
    too_long: 8,
};

/// A file of a cartridge.
#[derive(Clone, Copy)]
pub struct CartFormat;

impl Format for CartFormat {
    type Value = Cart;

    ghost format = { λ _. cart_format };

    ghost holds = { λ _. Unit {0} };

    #[tactic(auto, unfolding(crate::specs::Formats::cart_format))]
    fn bounds(self) -> Bounds {
        CART
    }

    #[tactic(auto, unfolding(crate::specs::Formats::cart_format))]
    fn without(self, _alloc: Global, _name: &str) -> Option<Cart> {
        None
    }

    #[tactic(auto, unfolding(crate::specs::Formats::cart_format))]
    fn read(self, alloc: Global, bytes: &[u8]) -> Result<Cart, Stop> {
        match Cart::read(alloc, bytes) {
            Ok(cart) => Ok(cart),
            Err(CartRefused::NoMemory) => Err(Stop::NoMemory),
            Err(refusal) => Err(refused(alloc, Kind::Cartridge, &refusal)),
        }
    }
}

/// A file of a script.
#[derive(Clone, Copy)]
pub struct ScriptFormat;

impl Format for ScriptFormat {
    type Value = Script;

    ghost format = { λ _. script_format };

    ghost holds = { λ _. Unit {0} };

    #[tactic(auto, unfolding(crate::specs::Formats::script_format))]
    fn bounds(self) -> Bounds {
        SCRIPT
    }

    #[tactic(auto, unfolding(crate::specs::Formats::script_format))]
    fn without(self, _alloc: Global, _name: &str) -> Option<Script> {
        None
    }

    #[tactic(auto, unfolding(crate::specs::Formats::script_format))]
    fn read(self, alloc: Global, bytes: &[u8]) -> Result<Script, Stop> {
        match Script::read(alloc, bytes) {
            Ok(script) => Ok(script),
            Err(ScriptRefused::NoMemory) => Err(Stop::NoMemory),
            Err(refusal) => Err(refused(alloc, Kind::Script, &refusal)),
        }
    }
}

/// A file of a movie; the name `-` is the empty one and no file.
#[derive(Clone, Copy)]
pub struct MovieFormat;

impl Format for MovieFormat {
    type Value = Movie;

    ghost format = { λ _. movie_format };

    ghost holds = { λ movie. length movie ≤ 2 ^ 20 };

    #[tactic(auto, unfolding(crate::specs::Formats::movie_format))]
    fn bounds(self) -> Bounds {
        MOVIE
    }

    #[tactic(auto, unfolding(crate::specs::Formats::movie_format))]
    fn without(self, alloc: Global, name: &str) -> Option<Movie> {
        if name == "-" {
            Some(Movie::new(alloc))
        } else {
            None
        }
    }

    #[tactic(auto, unfolding(crate::specs::Formats::movie_format))]
    fn read(self, alloc: Global, bytes: &[u8]) -> Result<Movie, Stop> {
        a_text_says_its_pads();
        match read_movie(alloc, bytes) {
            Ok(movie) => Ok(movie),
            Err(MovieRefused::NoMemory) => Err(Stop::NoMemory),
            Err(refusal) => Err(refused(alloc, Kind::Movie, &refusal)),
        }
    }
}

/// A file of a source.
#[derive(Clone, Copy)]
pub struct SourceFormat;

impl Format for SourceFormat {
    type Value = Assembled;

    ghost format = { λ _. source_format };

    ghost holds = { λ _. Unit {0} };

    #[tactic(auto, unfolding(crate::specs::Formats::source_format))]
    fn bounds(self) -> Bounds {
        SOURCE
    }

    #[tactic(auto, unfolding(crate::specs::Formats::source_format))]
    fn without(self, _alloc: Global, _name: &str) -> Option<Assembled> {
        None
    }

    #[tactic(auto, unfolding(crate::specs::Formats::source_format))]
    fn read(self, alloc: Global, bytes: &[u8]) -> Result<Assembled, Stop> {
        match assemble(alloc, bytes) {
            Ok(assembled) => Ok(assembled),
            Err(AsmRefused::NoMemory) => Err(Stop::NoMemory),
            Err(refusal) => Err(refused(alloc, Kind::Source, &refusal)),
        }
    }
}

/// A file of a saved search of the files of these hashes.
#[derive(Clone, Copy)]
pub struct SavedFormat {
    /// Of the cartridge.
    pub cart: u64,
    /// Of the script with the start.
    pub script: u64,
}

impl Format for SavedFormat {
    type Value = Saved;

    ghost format = { λ f. saved_format f.cart f.script };

    ghost holds = { λ saved. IsInRange saved × Fits saved };

    #[tactic(auto, unfolding(crate::specs::Formats::saved_format))]
    fn bounds(self) -> Bounds {
        SAVED
    }

    #[tactic(auto, unfolding(crate::specs::Formats::saved_format))]
    fn without(self, _alloc: Global, _name: &str) -> Option<Saved> {
        None
    }

    #[tactic(auto, unfolding(crate::specs::Formats::saved_format))]
    fn read(self, alloc: Global, bytes: &[u8]) -> Result<Saved, Stop> {
        match read_saved(alloc, bytes, self.cart, self.script) {
            Ok(saved) => Ok(saved),
            Err(SavedRefused::NoMemory) => Err(Stop::NoMemory),
            Err(refusal) => Err(refused(alloc, Kind::Saved, &refusal)),
        }
    }
}

/// A file of this kind, with the hash of its bytes. Each name is a file's.
#[derive(Clone, Copy)]
pub struct Hashed<F: Format> {
    pub format: F,
}

impl<F: Format> Format for Hashed<F> {
    type Value = (F::Value, u64);

    ghost format = { λ f. hashed (F.format f.format) };

    ghost holds = { λ value. F.holds value.0 };

    #[tactic(auto, unfolding(crate::specs::Formats::hashed))]
    fn bounds(self) -> Bounds {
        self.format.bounds()
    }

    #[tactic(auto, unfolding(crate::specs::Formats::hashed))]
    fn without(self, _alloc: Global, _name: &str) -> Option<(F::Value, u64)> {
        None
    }

    #[tactic(auto, unfolding(crate::specs::Formats::hashed))]
    fn read(self, alloc: Global, bytes: &[u8]) -> Result<(F::Value, u64), Stop> {
        let value = self.format.read(alloc, bytes)?;
        Ok((value, fnv(bytes)))
    }
}
