use crate::journal::{PGSQL, is_read};
use lq_base::Dialect;
use std::alloc::Global;
use std::process::Abort;

// The header, an entry, and the open gate behind it.
const BEHIND_ONE: &[u8] =
    b"LQJOURNAL1 PGSQL\x01\x00\x00\x00\x13T\x00\x00\x00\x0eDROP TABLE \"t\"\x01";

// Of files of this head, and of what comes behind it, each is loaded as it is told.
fn assert_read(rt: &impl Abort, alloc: Global, head: &[u8], rows: &[(&[u8], &str)]) {
    for (number, row) in rows.iter().enumerate() {
        let holds = is_read(alloc, Dialect::Postgresql, head, row.0, row.1);
        assert!(rt; holds.expect(rt, "memory"), "{number}");
    }
}

// An entry of one text or of two: its length, or that of a text, is one more or one less than there is.
const ONE_ENTRY: [(&[u8], &str); 12] = [
    (
        b"\x01\x00\x00\x00\x12T\x00\x00\x00\x0eDROP TABLE \"t\"\x00",
        "damaged at 17",
    ),
    (
        b"\x01\x00\x00\x00\x14T\x00\x00\x00\x0eDROP TABLE \"t\"\x00",
        "damaged at 17",
    ),
    (
        b"\x01\x00\x00\x00\x14T\x00\x00\x00\x0eDROP TABLE \"t\"\x00\x00",
        "damaged at 17",
    ),
    (
        b"\x01\x00\x00\x00\x13T\x00\x00\x00\x0dDROP TABLE \"t\"\x00",
        "damaged at 17",
    ),
    (
        b"\x01\x00\x00\x00\x13T\x00\x00\x00\x0fDROP TABLE \"t\"\x00",
        "damaged at 17",
    ),
    (
        b"\x01\x00\x00\x00\x12T\x00\x00\x00\x0dDROP TABLE \"t\"\x00",
        "40 used, 17 DROP TABLE \"t",
    ),
    (
        b"\x01\x00\x00\x00\x14T\x00\x00\x00\x0fDROP TABLE \"t\"\x00\x00",
        "42 used, 17 DROP TABLE \"t\"\0",
    ),
    (
        b"\x01\x00\x00\x00\x0bT\x00\x00\x00\x01a\x00\x00\x00\x01b\x00",
        "33 used, 17 a b",
    ),
    (
        b"\x01\x00\x00\x00\x0bT\x00\x00\x00\x00a\x00\x00\x00\x01b\x00",
        "damaged at 17",
    ),
    (
        b"\x01\x00\x00\x00\x0bT\x00\x00\x00\x02a\x00\x00\x00\x01b\x00",
        "damaged at 17",
    ),
    (
        b"\x01\x00\x00\x00\x0bT\x00\x00\x00\x01a\x00\x00\x00\x00b\x00",
        "damaged at 17",
    ),
    (
        b"\x01\x00\x00\x00\x0bT\x00\x00\x00\x01a\x00\x00\x00\x02b\x00",
        "damaged at 17",
    ),
];

#[test]
fn lengths_of_an_entry_add_up(rt: HostRuntime) {
    assert_read(&rt, rt.alloc(), PGSQL, &ONE_ENTRY)
}

// The same of an entry behind others, which is told at its own place.
const LATER_ENTRIES: [(&[u8], &str); 8] = [
    (
        b"\x00\x00\x00\x13T\x00\x00\x00\x0eDROP TABLE \"t\"\x00",
        "65 used, 17 DROP TABLE \"t\", 41 DROP TABLE \"t\"",
    ),
    (
        b"\x00\x00\x00\x12T\x00\x00\x00\x0eDROP TABLE \"t\"\x00",
        "damaged at 41",
    ),
    (
        b"\x00\x00\x00\x14T\x00\x00\x00\x0eDROP TABLE \"t\"\x00",
        "damaged at 41",
    ),
    (
        b"\x00\x00\x00\x14T\x00\x00\x00\x0eDROP TABLE \"t\"\x00\x00",
        "damaged at 41",
    ),
    (
        b"\x00\x00\x00\x13T\x00\x00\x00\x0dDROP TABLE \"t\"\x00",
        "damaged at 41",
    ),
    (
        b"\x00\x00\x00\x13T\x00\x00\x00\x0fDROP TABLE \"t\"\x00",
        "damaged at 41",
    ),
    (b"\xff\xff\xff\xff", "damaged at 41"),
    (
        b"\x00\x00\x00\x13T\x00\x00\x00\x0eDROP TABLE \"t\"\x01\x00\x00\x00\x14T\x00\x00\x00\x0eDROP TABLE \"t\"\x00",
        "damaged at 65",
    ),
];

#[test]
fn a_wrong_entry_is_told_at_its_place(rt: HostRuntime) {
    assert_read(&rt, rt.alloc(), BEHIND_ONE, &LATER_ENTRIES)
}

// An entry that says to have no end, or a text in one, and a closed gate with anything behind it.
const ENDLESS: [(&[u8], &str); 7] = [
    (b"\x01\xff\xff\xff\xff", "damaged at 17"),
    (
        b"\x01\xff\xff\xff\xffT\x00\x00\x00\x0eDROP TABLE \"t\"\x00",
        "damaged at 17",
    ),
    (
        b"\x01\x80\x00\x00\x00T\x00\x00\x00\x0eDROP TABLE \"t\"\x00",
        "damaged at 17",
    ),
    (
        b"\x01\x7f\xff\xff\xffT\x00\x00\x00\x0eDROP TABLE \"t\"\x00",
        "damaged at 17",
    ),
    (
        b"\x01\x00\x00\x00\x13T\xff\xff\xff\xffDROP TABLE \"t\"\x00",
        "damaged at 17",
    ),
    (
        b"\x01\x00\x00\x00\x13T\x80\x00\x00\x0eDROP TABLE \"t\"\x00",
        "damaged at 17",
    ),
    (
        b"\x07\x01\x01\x01\x01\x01\x01\x01\x01\x01\x01\x01\x01\x01\x01\x01\x01\x01\x01\x01\x01\x01\x01\x01\x01\x01\x01\x01\x01\x01\x01\x01\x01\x01\x01\x01\x01\x01\x01\x01\x01\x01\x01\x01\x01\x01\x01\x01\x01\x01\x01\x01\x01\x01\x01\x01\x01\x01\x01\x01\x01\x01\x01\x01\x01\x01\x01\x01\x01\x01\x01\x01\x01\x01\x01\x01\x01\x01\x01\x01\x01\x01\x01\x01\x01\x01\x01\x01\x01\x01\x01\x01\x01\x01\x01\x01\x01\x01\x01\x01\x01",
        "17 used",
    ),
];

#[test]
fn an_endless_entry_is_damage(rt: HostRuntime) {
    assert_read(&rt, rt.alloc(), PGSQL, &ENDLESS)
}
