//! `search CART SCRIPT START` and `resume CART SCRIPT START SAVED`: the outcome of a planned search, by one thread or
//! by several workers, and at its limit its state as a file to go on with.

ghost use Rattle.std.specs.Prelude.{◌≡◌, ◌≢◌, ◌≤◌, ℕ, List, length, map, option_map, Contains, IfOk, IfSome, IsErrOf, Result, Some, None, Err};
ghost use Rattle.std.specs.List.{AllZip};
ghost use Rattle.nj_bytes.specs.Fnv.{fnv_from, fnv_of};
ghost use Rattle.nj_outside.specs.Rise.{Rose};
ghost use Rattle.nj_outside.specs.Told.{Files};
ghost use Rattle.nj_saved.specs.Ranges.{Fits, IsInRange};
ghost use Rattle.nj_plan.specs.Plans.{AreInRange};
ghost use Rattle.nj_tasks.specs.Causes.{IsCarriedOut, IsSavedAs};
ghost use Rattle.nj_tasks.specs.Stops.{Loads, Reads, Serves};
ghost use Rattle.nj_tasks.specs.Work.{frames_for, frames_of, given, value_told};
ghost use Rattle.nj_tasks.specs.declared.stops.Put.{Put};
ghost use Rattle.nj_texts.specs.declared.kinds.Kind.TheVariants as kinds;
ghost use Rattle.nj_words.specs.Commands.{AreInRange as AreOptionsInRange};
ghost use Rattle.nj_words.specs.declared.SearchOptions.{SearchOptions};
ghost use Rattle.nj_workers.specs.Counted.{AreCounted};
ghost use Rattle.nj_search.specs.declared.searching.Ended.{Ended};
ghost use Rattle.nj_app.specs.Outcomes.{outcome_status};
ghost use Rattle.nj_app.specs.Search.{file_of, found_of, game_files, game_names, input_of, limits_of, names_in, saved_bytes, saved_loaded};
ghost use Rattle.nj_app.specs.Search.{search_files, search_finding, search_names, share_work, works_of};
ghost use Rattle.nj_app.specs.declared.search.SearchFiles.{SearchFiles};
ghost use Rattle.nj_app.specs.declared.sharing.TheConstants.{COUNTERS};

use crate::outcomes::{outcome_status, outcome_text};
use crate::planning::{self, Setting, searched_by_workers};
use crate::sharing::COUNTERS;
use nj_bytes::fnv_on;
use nj_ines::Cart;
use nj_movie::Movie;
use nj_outside::{Gate, Shelf};
use nj_pad::Pad;
use nj_saved::{Saved, write_saved};
use nj_script::Script;
use nj_search::{Ended, Limits, Outcome};
use nj_seq::{Seq, Text};
use nj_steps::Steps;
use nj_tasks::{
    CartFormat, Hashed, Job, MovieFormat, Put, Reply, SavedFormat, ScriptFormat, Source, Stop,
    Task, named, reply_of,
};
use nj_words::SearchOptions;
use std::alloc::{AllocError, Global};
use std::sync::Wait;
use std::sync::ledger::Ledger;
use std::thread::Threads;

/// What a search is of, and the numbers of its files, which stand in a saved search.
#[derive(Drop)]
pub struct SearchInput {
    pub setting: Setting,
    /// FNV-1a of the cartridge file.
    pub cart_hash: u64,
    /// FNV-1a of the script file followed by a byte for each pad of the start.
    pub script_hash: u64,
}

/// The files of a search: `search` has no saved one.
#[derive(Clone, Copy)]
pub struct SearchFiles<'a> {
    pub cart: &'a Text,
    pub script: &'a Text,
    pub start: &'a Text,
    pub saved: Option<&'a Text>,
}

impl Source for SearchFiles<'_> {
    type Value = SearchInput;

    ghost work = { works_of };

    ghost names = { names_in };

    ghost holds = { λ said. IfSome said.setting.saved IsInRange × IfSome said.setting.saved Fits };

    fn load<S: Shelf>(&self, alloc: Global, shelf: &mut S) -> Result<SearchInput, Stop> {
        let said = load_game(alloc, shelf, self)?;
        let input = input_of(said);
        match self.saved {
            None => Ok(input),
            Some(name) => with_saved(alloc, shelf, input, name),
        }
    }
}

/// What is read before a saved search: the cartridge, the script and the start movie, the first two with their hashes.
#[tactic(auto, unfolding(nj_tasks::specs::Formats::hashed))]
fn load_game<S: Shelf>(
    alloc: Global,
    shelf: &mut S,
    names: &SearchFiles<'_>,
) -> Result<(((Cart, u64), (Script, u64)), Movie), Stop>
    ensures loads { (files : Files) → S.content shelf.old ≡ Some files →
        Loads files (game_files names.now.cart.now names.now.script.now names.now.start.now)
        (S.failed_read shelf.new) result }
    ensures not_words { result ≢ Err Stop.Usage }
    ensures fault { IsErrOf result Stop.ReadFault → Rose (S.read_faults shelf.old) (S.read_faults shelf.new) }
    ensures no_fault { ¬ IsErrOf result Stop.ReadFault → S.read_faults shelf.new ≡ S.read_faults shelf.old }
    ensures fault_name { IsErrOf result Stop.ReadFault →
        Contains (map fnv_of (game_names names.now.cart.now names.now.script.now names.now.start.now))
        (S.failed_read shelf.new) }
    ensures content { S.content shelf.new ≡ S.content shelf.old }
    ensures put_faults { S.put_faults shelf.new ≡ S.put_faults shelf.old }
{
    let cart = named(Hashed { format: CartFormat }, names.cart);
    let script = named(
        Hashed {
            format: ScriptFormat,
        },
        names.script,
    );
    let start = named(MovieFormat, names.start);
    ((cart, script), start).load(alloc, shelf)
}

/// What a search is of before its saved file is read.
fn input_of(said: (((Cart, u64), (Script, u64)), Movie)) -> SearchInput
    ensures { result ≡ input_of said }
{
    let (((cart, cart_hash), (script, script_hash)), start) = said;
    let script_hash = hash_pads(script_hash, start.pads());
    SearchInput {
        setting: Setting {
            cart,
            script,
            start,
            saved: None,
        },
        cart_hash,
        script_hash,
    }
}

/// FNV-1a, going on from a hash by a byte for each pad.
#[tactic(auto, unfolding(nj_bytes::specs::Fnv::fnv_from))]
fn hash_pads(hash: u64, pads: &[Pad]) -> u64
    ensures { result ≡ fnv_from hash pads.now }
{
    pads.iter().fold(hash, |hash, pad| fnv_on(hash, &[pad.0]))
}

/// The same with the saved search of this name.
fn with_saved<S: Shelf>(
    alloc: Global,
    shelf: &mut S,
    input: SearchInput,
    name: &Text,
) -> Result<SearchInput, Stop>
    requires { input.setting.saved ≡ None }
    ensures loads { (files : Files) → S.content shelf.old ≡ Some files →
        Loads files (saved_loaded (Some name.now) input) (S.failed_read shelf.new) result }
    ensures saved { IfOk result (λ said. IfSome said.setting.saved IsInRange) }
    ensures fits { IfOk result (λ said. IfSome said.setting.saved Fits) }
    ensures not_words { result ≢ Err Stop.Usage }
    ensures fault { IsErrOf result Stop.ReadFault → Rose (S.read_faults shelf.old) (S.read_faults shelf.new) }
    ensures no_fault { ¬ IsErrOf result Stop.ReadFault → S.read_faults shelf.new ≡ S.read_faults shelf.old }
    ensures fault_name { IsErrOf result Stop.ReadFault → S.failed_read shelf.new ≡ fnv_of name.now }
    ensures content { S.content shelf.new ≡ S.content shelf.old }
    ensures put_faults { S.put_faults shelf.new ≡ S.put_faults shelf.old }
{
    let mut input = input;
    let format = SavedFormat {
        cart: input.cart_hash,
        script: input.script_hash,
    };
    let saved = named(format, name).load(alloc, shelf)?;
    input.setting.saved = Some(saved);
    Ok(input)
}

/// What a search found: its outcome, and where it is to be saved at its limit the bytes of its file.
#[derive(Drop)]
pub struct Found {
    pub outcome: Outcome,
    pub saved: Option<Seq<u8>>,
}

/// What a search does by one thread, and by several workers.
#[derive(Clone, Copy)]
pub struct Search<'a> {
    pub options: &'a SearchOptions,
}

/// The task of `search`.
pub fn searched<'a>(
    cart: &'a Text,
    script: &'a Text,
    start: &'a Text,
    options: &'a SearchOptions,
) -> Task<SearchFiles<'a>, Search<'a>>
    ensures work { works_of result.source ≡ search_files cart.now script.now start.now None }
    ensures names { names_in result.source ≡ search_names cart.now script.now start.now None }
    ensures options { result.job.options.now ≡ options.now }
{
    Task {
        source: SearchFiles {
            cart,
            script,
            start,
            saved: None,
        },
        job: Search { options },
    }
}

/// The task of `resume`.
pub fn resumed<'a>(
    cart: &'a Text,
    script: &'a Text,
    start: &'a Text,
    saved: &'a Text,
    options: &'a SearchOptions,
) -> Task<SearchFiles<'a>, Search<'a>>
    ensures work { works_of result.source ≡ search_files cart.now script.now start.now (Some saved.now) }
    ensures names { names_in result.source ≡ search_names cart.now script.now start.now (Some saved.now) }
    ensures options { result.job.options.now ≡ options.now }
{
    Task {
        source: SearchFiles {
            cart,
            script,
            start,
            saved: Some(saved),
        },
        job: Search { options },
    }
}

impl Job<SearchInput> for Search<'_> {
    type Found = Found;

    ghost finding = { λ job. search_finding job.options.now };

    ghost needs = { λ job said. AreOptionsInRange job.options.now
        × IfSome said.setting.saved IsInRange × IfSome said.setting.saved Fits };

    ghost saves = { λ job. let options : SearchOptions = job.options.now in options.save };

    #[tactic(auto, unfolding(crate::specs::Search::search_finding))]
    fn find<L: Ledger>(
        &self,
        alloc: Global,
        said: SearchInput,
        steps: &mut Steps<L>,
    ) -> Result<Found, Stop> {
        let SearchInput {
            setting,
            cart_hash,
            script_hash,
        } = said;
        let keep = self.options.save.is_some();
        let ended = planning::searched(alloc, setting, limits_of(self.options), keep, steps);
        found_from(alloc, ended, cart_hash, script_hash)
    }

    #[tactic(auto, unfolding(crate::specs::Search::search_finding))]
    fn reply(&self, alloc: Global, found: Found) -> Result<Reply, AllocError> {
        let Found { outcome, saved } = found;
        let text = outcome_text(alloc, &outcome)?;
        let file = file_of(alloc, &self.options.save, &outcome, saved)?;
        Ok(Reply {
            status: outcome_status(&outcome),
            text,
            file,
        })
    }
}

/// The limits that the options set.
fn limits_of(options: &SearchOptions) -> Limits
    requires { AreOptionsInRange options.now }
    ensures value { result ≡ limits_of options.now }
    ensures in_range { AreInRange result }
{
    Limits {
        budget: options.budget,
        steps: options.steps,
        exponent: options.exponent,
    }
}

/// What a search that ended found, or the stop of its planning.
fn found_from(
    alloc: Global,
    ended: Result<Ended, Stop>,
    cart: u64,
    script: u64,
) -> Result<Found, Stop>
    requires { IfOk ended (λ ended. IfSome ended.saved IsInRange) }
    ensures reads { (reading : Result Ended (List ℕ)) → Reads kinds.Plan reading ended →
        Reads kinds.Plan (value_told (found_of cart script) reading) result }
    ensures not_words { ended ≢ Err Stop.Usage → result ≢ Err Stop.Usage }
    ensures not_unread { ended ≢ Err Stop.ReadFault → result ≢ Err Stop.ReadFault }
{
    let ended = ended?;
    Ok(found_of(alloc, ended, cart, script)?)
}

/// What was found, where the saved search is of the files of these hashes.
fn found_of(alloc: Global, ended: Ended, cart: u64, script: u64) -> Result<Found, AllocError>
    requires { IfSome ended.saved IsInRange }
    ensures { IfOk result (λ found. found ≡ found_of cart script ended) }
{
    let Ended { outcome, saved } = ended;
    let saved = match saved {
        Some(saved) => Some(saved_bytes(alloc, saved, cart, script)?),
        None => None,
    };
    Ok(Found { outcome, saved })
}

/// The bytes of a saved search of the files of these hashes.
fn saved_bytes(
    alloc: Global,
    mut saved: Saved,
    cart: u64,
    script: u64,
) -> Result<Seq<u8>, AllocError>
    requires { IsInRange saved }
    ensures { IfOk result (λ bytes. bytes ≡ saved_bytes cart script saved) }
{
    saved.cart = cart;
    saved.script = script;
    let bytes = write_saved(alloc, &saved)?;
    Ok(Seq::from_vec(bytes))
}

/// The file that is put: at the limit alone, where there is a name for it.
fn file_of(
    alloc: Global,
    name: &Option<Text>,
    outcome: &Outcome,
    saved: Option<Seq<u8>>,
) -> Result<Option<Put>, AllocError>
    ensures file { IfOk result (λ file. file ≡ file_of name.now outcome.now saved) }
    ensures at_limit { IfOk result (λ file. (put : Put) → file ≡ Some put → outcome_status outcome.now ≡ 2) }
    ensures named { IfOk result (λ file. (put : Put) → file ≡ Some put → name.now ≡ Some put.name) }
{
    match (name, outcome, saved) {
        (Some(name), Outcome::Limit { .. }, Some(bytes)) => {
            let name = Text::from_str(alloc, name.as_str())?;
            Ok(Some(Put { name, bytes }))
        }
        _ => Ok(None),
    }
}

/// The reply to a search by several workers.
pub fn share<R: Threads + Wait + Sync, S: Shelf, G: Gate, L: Ledger + Send>(
    rt: &R,
    alloc: Global,
    files: &SearchFiles<'_>,
    options: &SearchOptions,
    shelf: &mut S,
    gate: &G,
    steps: &mut Vec<Steps<L>>,
) -> Result<Reply, Stop>
    requires options { AreOptionsInRange options.now }
    requires counters { COUNTERS ≤ length steps.old.items }
    ensures serves { (told : Files) → S.content shelf.old ≡ Some told →
        Serves told (share_work files.now options.now) (S.failed_read shelf.new) result }
    ensures done { IfOk result (λ reply. IsCarriedOut reply.status) }
    ensures saved { IfOk result (IsSavedAs options.now.save) }
    ensures not_words { result ≢ Err Stop.Usage }
    ensures fault { IsErrOf result Stop.ReadFault → Rose (S.read_faults shelf.old) (S.read_faults shelf.new) }
    ensures no_fault { ¬ IsErrOf result Stop.ReadFault → S.read_faults shelf.new ≡ S.read_faults shelf.old }
    ensures fault_name { IsErrOf result Stop.ReadFault →
        Contains (map fnv_of (names_in files.now)) (S.failed_read shelf.new) }
    ensures frames { (told : Files) → S.content shelf.old ≡ Some told →
        AreCounted COUNTERS steps.old.items steps.new.items
        (frames_of (given told (share_work files.now options.now))) }
    ensures never_falls { AllZip (λ before after. before ≤ after) steps.old.items steps.new.items }
    ensures content { S.content shelf.new ≡ S.content shelf.old }
    ensures put_faults { S.put_faults shelf.new ≡ S.put_faults shelf.old }
{
    let said = files.load(alloc, shelf)?;
    let found = found_by_workers(rt, alloc, said, options, gate, steps);
    let job = Search { options };
    reply_of(alloc, &job, found)
}

/// What a search finds by as many workers as its options ask for.
#[tactic(auto, unfolding(crate::specs::Search::search_finding))]
fn found_by_workers<R: Threads + Wait + Sync, G: Gate, L: Ledger + Send>(
    rt: &R,
    alloc: Global,
    said: SearchInput,
    options: &SearchOptions,
    gate: &G,
    steps: &mut Vec<Steps<L>>,
) -> Result<Found, Stop>
    requires options { AreOptionsInRange options.now }
    requires saved { IfSome said.setting.saved IsInRange }
    requires fits { IfSome said.setting.saved Fits }
    requires counters { COUNTERS ≤ length steps.old.items }
    ensures reads { Reads (search_finding options.now).kind ((search_finding options.now).reading said) result }
    ensures not_words { result ≢ Err Stop.Usage }
    ensures not_unread { result ≢ Err Stop.ReadFault }
    ensures frames { AreCounted COUNTERS steps.old.items steps.new.items
        (frames_for ((search_finding options.now).reading said) ((search_finding options.now).frames said)) }
{
    let SearchInput {
        setting,
        cart_hash,
        script_hash,
    } = said;
    let keep = options.save.is_some();
    let ended = searched_by_workers(
        rt,
        alloc,
        setting,
        limits_of(options),
        keep,
        options.workers,
        gate,
        steps,
    );
    found_from(alloc, ended, cart_hash, script_hash)
}
