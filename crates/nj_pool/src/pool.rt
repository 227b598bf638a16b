ghost use Rattle.std.specs.Prelude.{◌≡◌, ◌+◌, ◌<◌, ◌≤◌, [], ◌∷◌, ◌++◌, length, take, get_or, is_ok, IfOk, IfErr, OnErr, if◌then◌else◌};
ghost use Rattle.nj_image.specs.Pages.{IsImageSize};
ghost use Rattle.nj_image.specs.Packing.{packing};
ghost use Rattle.nj_pool.specs.Words.{HaveParents};
ghost use Rattle.nj_pool.specs.Front.{need, bytes_held, empty_front, with_word, with_birth, with_births, next_front, HasRoom};
ghost use Rattle.nj_pool.specs.Refused.{Refuses, RefusesBy};

use crate::birth::Birth;
use crate::refused::PushRefused;
use crate::strings::Strings;
use crate::trail::Trail;
use nj_image::{a_packing_tells_its_image, pack, unpack};
use nj_pad::Pad;
use nj_seq::Seq;
use std::alloc::{AllocError, Global};
use std::marker::Model;

// What a state needs beside the bytes of its packing.
const PLACE_BYTES: u64 = 15;

/// A list of states, each with its image and its word, or with its birth until it has become a front. The images are
/// held as packings over a base.
#[derive(Drop)]
pub struct FrontPool {
    base: Vec<u8>,
    limit: u64,
    bytes: u64,
    packings: Strings,
    room: Vec<u8>,
    trail: Trail,
    born: Seq<Birth>,
}

impl Model for FrontPool {
    ghost use Rattle.nj_pool.specs.Front.{Front, images_in, IsPacked};

    ghost Value = { Front };

    ghost view = { λ p. record {
      base = p.base.items;
      limit = p.limit;
      images = images_in p.base.items p.packings;
      words = p.trail.words;
      depth = p.trail.depth;
      born = p.born;
    } };

    ghost invariant = { λ p. IsPacked p.base.items p.room.items p.limit p.bytes p.packings };
}

impl FrontPool {
    /// An empty pool for images as long as `base`: 4,480 bytes, or 12,672. The limit is in bytes. A state needs the
    /// less, the fewer pages of its image differ from the base's.
    pub fn new(alloc: Global, base: &[u8], limit: u64) -> Result<FrontPool, AllocError>
        requires { IsImageSize base.now }
        ensures { IfOk result (λ pool. pool ≡ empty_front base.now limit) }
    {
        Ok(FrontPool {
            base: Vec::from_slice(alloc, base)?,
            limit,
            bytes: 0,
            packings: Strings::new(alloc),
            room: vec![in alloc; 0; base.len() + 1]?,
            trail: Trail::new(alloc),
            born: Seq::new(alloc),
        })
    }

    /// The base over which the images are packed.
    pub fn base(&self) -> &[u8]
        ensures base { result.now ≡ self.now.base }
        ensures size { IsImageSize result.now }
    {
        self.base.as_slice()
    }

    /// Adds a state with its whole word, one byte a pad, before any front followed this one.
    pub fn push_word(&mut self, alloc: Global, image: &[u8], word: &[u8]) -> Result<(), PushRefused>
        requires long { length image.now ≡ length self.old.base }
        requires first { self.old.depth ≡ 0 }
        ensures ok { IfOk result (λ _. self.new ≡ with_word image.now word.now self.old) }
        ensures room { IfOk result (λ _. HasRoom image.now self.old) }
        ensures refused { IfErr result (Refuses image.now self.old) }
        ensures unchanged { OnErr result (self.new ≡ self.old) }
    {
        a_packing_tells_its_image();
        let base = self.base.as_slice();
        let size = pack_within(image, base, &mut self.room, self.bytes, self.limit)?;
        let count = self.trail.roots();
        self.trail.push_root(alloc, word)?;
        if self.packings.push(&self.room[..size]).is_err() {
            self.trail.truncate(count);
            return Err(PushRefused::NoMemory);
        }
        self.bytes += size as u64 + PLACE_BYTES;
        Ok(())
    }

    /// Adds a state by the place of its parent in the front before and its last pad.
    pub fn push(&mut self, image: &[u8], parent: u32, pad: Pad) -> Result<(), PushRefused>
        requires long { length image.now ≡ length self.old.base }
        ensures ok { IfOk result (λ _. self.new ≡ with_birth image.now (record { parent = parent; pad = pad }) self.old) }
        ensures room { IfOk result (λ _. HasRoom image.now self.old) }
        ensures refused { IfErr result (Refuses image.now self.old) }
        ensures unchanged { OnErr result (self.new ≡ self.old) }
    {
        a_packing_tells_its_image();
        let base = self.base.as_slice();
        let size = pack_within(image, base, &mut self.room, self.bytes, self.limit)?;
        let count = self.born.len();
        let birth = Birth { parent, pad: pad.0 };
        if self.born.push(birth).is_err() {
            return Err(PushRefused::NoMemory);
        }
        if self.packings.push(&self.room[..size]).is_err() {
            self.born.truncate(count);
            return Err(PushRefused::NoMemory);
        }
        self.bytes += size as u64 + PLACE_BYTES;
        Ok(())
    }

    /// Adds the states of another pool over the same base, whose words are their births, behind its own. Each byte of
    /// their packings is copied once.
    pub fn append(&mut self, other: FrontPool) -> Result<(), PushRefused>
        requires base { other.base ≡ self.old.base }
        requires births { other.words ≡ [] }
        ensures ok { IfOk result (λ _. self.new ≡ with_births self.old other) }
        ensures room { IfOk result (λ _. bytes_held self.old + bytes_held other ≤ self.old.limit) }
        ensures refused { IfErr result (RefusesBy (bytes_held self.old) (bytes_held other) self.old.limit) }
        ensures unchanged { OnErr result (self.new ≡ self.old) }
    {
        let FrontPool {
            base: _base,
            limit: _limit,
            bytes,
            packings,
            room: _room,
            trail: _trail,
            born,
        } = other;
        if self.limit - self.bytes < bytes {
            return Err(PushRefused::PoolFull {
                bytes: self.bytes,
                limit: self.limit,
            });
        }
        let count = self.born.len();
        if self.born.extend_from_slice(born.as_slice()).is_err() {
            return Err(PushRefused::NoMemory);
        }
        if self.packings.append(packings).is_err() {
            self.born.truncate(count);
            return Err(PushRefused::NoMemory);
        }
        self.bytes += bytes;
        Ok(())
    }

    /// Copies the image of the state at a place.
    pub fn load(&self, place: usize, into: &mut [u8])
        requires within { place < length self.now.images }
        requires long { length into.old ≡ length self.now.base }
        ensures { into.new ≡ get_or self.now.images place [] }
    {
        a_packing_tells_its_image();
        match unpack(self.packings.at(place), self.base.as_slice(), into) {
            Ok(()) => {}
            Err(_damaged) => unreachable!(),
        }
    }

    /// The word of the state at a place of a front, one byte a pad.
    pub fn word_of(&self, alloc: Global, place: usize) -> Result<Vec<u8>, AllocError>
        requires { place < length self.now.words }
        ensures { IfOk result (λ word. word.items ≡ get_or self.now.words place []) }
    {
        self.trail.word_of(alloc, place)
    }

    /// The number of states.
    pub fn len(&self) -> usize
        ensures { result ≡ length self.now.images }
    {
        self.packings.len()
    }

    /// The sum of what the states need.
    pub fn bytes(&self) -> u64
        ensures sum { result ≡ bytes_held self.now }
        ensures within { bytes_held self.now ≤ self.now.limit }
    {
        self.bytes
    }

    /// Makes the other pool's states the front. Without memory the pool is as before.
    pub fn next_front(&mut self, other: FrontPool) -> Result<(), AllocError>
        requires { HaveParents self.old.words other.born }
        ensures { self.new ≡ (if is_ok result then next_front self.old other else self.old) }
    {
        let FrontPool {
            base,
            limit,
            bytes,
            packings,
            room,
            trail: _trail,
            born,
        } = other;
        self.trail.grow(born)?;
        self.base = base;
        self.limit = limit;
        self.bytes = bytes;
        self.packings = packings;
        self.room = room;
        self.born.clear();
        Ok(())
    }
}

// Packs an image, if there is room for its state beside the bytes that are held; the answer is the packing's length.
fn pack_within(
    image: &[u8],
    base: &[u8],
    into: &mut Vec<u8>,
    bytes: u64,
    limit: u64,
) -> Result<usize, PushRefused>
    requires base { IsImageSize base.now }
    requires image { length image.now ≡ length base.now }
    requires into { length into.old.items ≡ length base.now + 1 }
    requires within { bytes ≤ limit }
    ensures long { length into.new.items ≡ length into.old.items }
    ensures packing { IfOk result (λ size. take size into.new.items ≡ packing image.now base.now) }
    ensures size { IfOk result (λ size. size ≡ length (packing image.now base.now)) }
    ensures room { IfOk result (λ size. bytes + need base.now image.now ≤ limit) }
    ensures refused { IfErr result (λ refused. RefusesBy bytes (need base.now image.now) limit refused) }
{
    let size = pack(image, base, into.as_mut_slice());
    if limit - bytes < size as u64 + PLACE_BYTES {
        return Err(PushRefused::PoolFull { bytes, limit });
    }
    Ok(size)
}
