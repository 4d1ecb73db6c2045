ghost use Rattle.lq_model.specs.Changes.{IsFinished};

use lq_base::{NoMemory, Text};
use lq_canon::{checksum, old_checksum};
use lq_model::Canon;
use std::alloc::Global;
use std::test::Fail;

// One change with each sort of value, in a list.
fn write_each_sort(canon: &mut Canon) -> Result<(), NoMemory> {
    canon.begin_list()?;
    canon.key("dropTable")?;
    canon.begin_map()?;
    canon.key("tableName")?;
    canon.text("größer t")?;
    canon.key("empty")?;
    canon.text("")?;
    canon.key("list")?;
    canon.begin_list()?;
    canon.number(0)?;
    canon.number(-170141183460469231731687303715884105728)?;
    canon.number(1000000)?;
    canon.end_list()?;
    canon.key("yes")?;
    canon.truth(true)?;
    canon.key("no")?;
    canon.truth(false)?;
    canon.end_map()?;
    canon.end_list()
}

#[test]
fn writes_the_canonical_form(rt: HostRuntime) -> Result<(), Fail> {
    let mut canon = Canon::new(rt.alloc());
    write_each_sort(&mut canon)?;
    let wanted =
        "[9:dropTable{9:tableNamet10:größer t5:emptyt0:4:list[n1:0n40:-170141183460469231731687303715884105728n7:1000000]3:yesb12:nob0}]";
    assert_eq!(rt; canon.written(), wanted.as_bytes());
    Ok(())
}

// Begins a list, and a change in it that is taken back.
fn write_and_go_back(canon: &mut Canon) -> Result<(), NoMemory> {
    canon.begin_list()?;
    let mark = canon.mark();
    canon.key("dropTable")?;
    canon.begin_map()?;
    canon.go_back(mark);
    Ok(())
}

#[test]
fn goes_back_to_a_mark(rt: HostRuntime) -> Result<(), Fail> {
    let mut canon = Canon::new(rt.alloc());
    write_and_go_back(&mut canon)?;
    assert_eq!(rt; canon.mark().begun, 1);
    canon.text("t")?;
    assert_eq!(rt; canon.written(), "[t1:t".as_bytes());
    Ok(())
}

fn write_dropped_table(canon: &mut Canon) -> Result<(), NoMemory> {
    canon.begin_list()?;
    canon.key("dropTable")?;
    canon.begin_map()?;
    canon.key("tableName")?;
    canon.text("t")?;
    canon.end_map()?;
    canon.end_list()
}

#[test]
fn writes_a_dropped_table(rt: HostRuntime) -> Result<(), Fail> {
    let mut canon = Canon::new(rt.alloc());
    assert!(rt; canon.written().is_empty());
    write_dropped_table(&mut canon)?;
    assert_eq!(rt;
        canon.written(),
        "[9:dropTable{9:tableNamet1:t}]".as_bytes()
    );
    Ok(())
}

// The sum, and the one of the old form.
fn both_sums(alloc: Global, changes: &Canon) -> Result<Text, NoMemory>
    requires { IsFinished changes.now }
{
    let mut both = checksum(alloc, changes)?;
    let old_sum = old_checksum(alloc, changes)?;
    both.push_all(&[" ", old_sum.as_str()])?;
    Ok(both)
}

fn sums_of_no_changes(alloc: Global) -> Result<Text, NoMemory> {
    let mut none = Canon::new(alloc);
    none.begin_list()?;
    none.end_list()?;
    both_sums(alloc, &none)
}

fn sums_of_one_change(alloc: Global) -> Result<Text, NoMemory> {
    let mut one = Canon::new(alloc);
    one.begin_list()?;
    one.key("dropTable")?;
    one.begin_map()?;
    one.key("tableName")?;
    one.text("t")?;
    one.end_map()?;
    one.end_list()?;
    both_sums(alloc, &one)
}

#[test]
fn gives_known_checksums(rt: HostRuntime) -> Result<(), Fail> {
    let none = sums_of_no_changes(rt.alloc())?;
    assert_eq!(rt;
        none.as_str(),
        "P2:d751713988987e9331980363e24189ce P1:d751713988987e9331980363e24189ce"
    );
    let one = sums_of_one_change(rt.alloc())?;
    assert_eq!(rt;
        one.as_str(),
        "P2:0f3ce696dcec492fb61d5b7e958b9a67 P1:0f3ce696dcec492fb61d5b7e958b9a67"
    );
    Ok(())
}
