ghost use Rattle.std.specs.Prelude.{◌≡◌, ◌+◌, ◌^◌, ◌<◌, ◌≤◌, true};
ghost use Rattle.nj_claims.specs.Tables.{no_owner};

use nj_claims::{ClaimTable, Claimed, Pass, empty_table, insert, is_table, owner_of};
use std::test::Fail;
use std::thread;

// Claims the keys from `first` up to `end` for the numbers above `base`, and answers whether all found room.
fn claim_keys(table: &ClaimTable, pass: &mut Pass, first: u64, end: u64, base: u64) -> bool
    requires own { pass.old.table ≡ table.now.id }
    requires keys { (0 < first) × (end < 2 ^ 32) × (base < 2 ^ 32) }
    ensures same { (pass.new.table ≡ pass.old.table) × (pass.new.is_root ≡ pass.old.is_root)
        × (pass.new.out ≡ pass.old.out) }
{
    let mut all = true;
    for key in first..end {
        all &= table.claim(pass, key, base + key) != Claimed::Full;
    }
    all
}

// The same by a thread of its own.
fn claimed_keys(table: &ClaimTable, mut pass: Pass, first: u64, end: u64, base: u64) -> Pass
    requires own { pass.table ≡ table.now.id }
    requires keys { (0 < first) × (end < 2 ^ 32) × (base < 2 ^ 32) }
    ensures same { (result.table ≡ pass.table) × (result.is_root ≡ pass.is_root) × (result.out ≡ pass.out) }
{
    claim_keys(table, &mut pass, first, end, base);
    pass
}

#[test]
fn the_least_number_owns_a_key(rt: HostRuntime) -> Result<(), Fail> {
    let words = empty_table(rt.alloc(), 10)?;
    let (table, mut pass) = ClaimTable::open(rt.alloc(), words)?;
    assert!(rt; table.claim(&mut pass, 5, 9) == Claimed::Least);
    assert!(rt; table.claim(&mut pass, 5, 7) == Claimed::Least);
    assert!(rt; table.claim(&mut pass, 5, 8) == Claimed::Before(7));
    let words = table.close(pass);
    assert!(rt; is_table(&words));
    assert!(rt; owner_of(&words, 5) == Some(7));
    assert!(rt; owner_of(&words, 6).is_none());
    Ok(())
}

#[test]
fn a_full_table_refuses_a_further_key(rt: HostRuntime) -> Result<(), Fail> {
    let words = empty_table(rt.alloc(), 10)?;
    let (table, mut pass) = ClaimTable::open(rt.alloc(), words)?;
    assert!(rt; claim_keys(&table, &mut pass, 2000, 3024, 0));
    assert!(rt; table.claim(&mut pass, 5, 9) == Claimed::Full);
    assert!(rt; table.claim(&mut pass, 2000, 9) == Claimed::Least);
    let words = table.close(pass);
    assert!(rt; words.iter().all(|word| *word != 0));
    assert!(rt; owner_of(&words, 5).is_none());
    assert!(rt; owner_of(&words, 3023) == Some(3023));
    Ok(())
}

#[test]
fn two_threads_claim_the_same_keys(rt: HostRuntime) -> Result<(), Fail> {
    let words = empty_table(rt.alloc(), 10)?;
    let (table, mut first) = ClaimTable::open(rt.alloc(), words)?;
    let second = table.split(&mut first);
    let shared = &table;
    let (mut first, second) = thread::join(
        &rt,
        move ||
            requires { first.table ≡ shared.now.id }
            ensures { (result.table ≡ first.table) × (result.is_root ≡ first.is_root) × (result.out ≡ first.out) }
        { claimed_keys(shared, first, 1, 900, 10000) },
        move ||
            requires { second.table ≡ shared.now.id }
            ensures { (result.table ≡ second.table) × (result.is_root ≡ second.is_root) × (result.out ≡ second.out) }
        { claimed_keys(shared, second, 100, 1000, 5000) },
    );
    table.join(&mut first, second);
    let words = table.close(first);
    assert!(rt; owner_of(&words, 99) == Some(10099));
    assert!(rt; owner_of(&words, 100) == Some(5100));
    assert!(rt; owner_of(&words, 999) == Some(5999));
    Ok(())
}

#[test]
fn an_entry_goes_behind_a_taken_home(rt: HostRuntime) -> Result<(), Fail> {
    let mut words = empty_table(rt.alloc(), 10)?;
    insert(&mut words, 1023, 3);
    insert(&mut words, 2047, 4);
    assert!(rt; words.as_slice()[..2] == [2047, 4]);
    assert!(rt; is_table(&words));
    words[2046] = 0;
    words[2047] = u64::MAX;
    assert!(rt; !is_table(&words));
    Ok(())
}
