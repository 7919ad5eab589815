// Benches: at capacity 1, full, emptied again, and with addresses and links out of range.
use super::Answer::{Done, Flag, Number};
use super::Call::{Free, Left, Live, Read, Take, Top, Write};
use super::{Refused, Step, run};
use bench::Bench;

const THREE_OF_FOUR: [Step; 6] = [
    (Left, Ok(Number(4))),
    (Take, Ok(Number(4))),
    (Take, Ok(Number(3))),
    (Take, Ok(Number(2))),
    (Left, Ok(Number(1))),
    (Top, Ok(Number(4))),
];

#[test]
fn highest_first(rt: HostRuntime) {
    let mut words = [7; 4];
    let mut bench = Bench::over(&mut words);
    run(&rt, &mut bench, &THREE_OF_FOUR);
    assert!(rt; words == [65535, 0, 0, 0]);
}

const ONE: [Step; 12] = [
    (Read(1), Err(Refused(141, 1, 1))),
    (Take, Ok(Number(1))),
    (Take, Err(Refused(143, 0, 1))),
    (Left, Ok(Number(0))),
    (Read(1), Ok(Number(0))),
    (Write(1, 1), Ok(Done)),
    (Read(1), Ok(Number(1))),
    (Free(1), Ok(Done)),
    (Free(1), Err(Refused(141, 1, 1))),
    (Left, Ok(Number(1))),
    (Take, Ok(Number(1))),
    (Read(1), Ok(Number(0))),
];

#[test]
fn one_cell(rt: HostRuntime) {
    let mut words = [9];
    let mut bench = Bench::over(&mut words);
    run(&rt, &mut bench, &ONE);
    assert!(rt; words == [0]);
}

const AGAIN: [Step; 14] = [
    (Take, Ok(Number(3))),
    (Take, Ok(Number(2))),
    (Take, Ok(Number(1))),
    (Take, Err(Refused(143, 0, 1))),
    (Free(2), Ok(Done)),
    (Take, Ok(Number(2))),
    (Take, Err(Refused(143, 0, 1))),
    (Free(1), Ok(Done)),
    (Free(3), Ok(Done)),
    (Free(2), Ok(Done)),
    (Left, Ok(Number(3))),
    (Take, Ok(Number(3))),
    (Take, Ok(Number(2))),
    (Left, Ok(Number(1))),
];

// A freed cell is taken again, the highest first, also after every cell was freed.
#[test]
fn freed_and_taken(rt: HostRuntime) {
    let mut words = [0; 3];
    let mut bench = Bench::over(&mut words);
    run(&rt, &mut bench, &AGAIN);
    assert!(rt; words == [65535, 0, 0]);
}

const ADDRESSES: [Step; 13] = [
    (Take, Ok(Number(2))),
    (Live(2), Ok(Flag(true))),
    (Live(1), Ok(Flag(false))),
    (Live(0), Ok(Flag(false))),
    (Live(3), Ok(Flag(false))),
    (Live(65535), Ok(Flag(false))),
    (Read(0), Err(Refused(141, 0, 1))),
    (Read(3), Err(Refused(141, 3, 1))),
    (Read(4294967295), Err(Refused(141, 4294967295, 1))),
    (Free(0), Err(Refused(141, 0, 1))),
    (Free(65535), Err(Refused(141, 65535, 1))),
    (Write(3, 65535), Err(Refused(141, 3, 1))),
    (Write(65538, 0), Err(Refused(141, 65538, 1))),
];

const LINKS: [Step; 8] = [
    (Write(2, 65535), Err(Refused(142, 65535, 1))),
    (Write(2, 65536), Err(Refused(142, 65536, 1))),
    (Write(2, 4294967295), Err(Refused(142, 4294967295, 1))),
    (Read(2), Ok(Number(0))),
    (Write(2, 65534), Ok(Done)),
    (Read(2), Ok(Number(65534))),
    (Write(2, 0), Ok(Done)),
    (Write(2, 3), Ok(Done)),
];

// Nil, the address behind top and 65,535 are never live; a link may be above top, but not above 65,534.
#[test]
fn out_of_range(rt: HostRuntime) {
    let mut words = [0; 2];
    let mut bench = Bench::over(&mut words);
    run(&rt, &mut bench, &ADDRESSES);
    run(&rt, &mut bench, &LINKS);
    assert!(rt; words == [65535, 3]);
}

const NOTHING: [Step; 7] = [
    (Top, Ok(Number(0))),
    (Left, Ok(Number(0))),
    (Live(1), Ok(Flag(false))),
    (Take, Err(Refused(143, 0, 1))),
    (Read(1), Err(Refused(141, 1, 1))),
    (Write(1, 65535), Err(Refused(141, 1, 1))),
    (Free(1), Err(Refused(141, 1, 1))),
];

// Over a list of a wrong length nothing can be taken, and nothing is written.
#[test]
fn too_long(rt: HostRuntime) {
    let mut words = [9; 4096];
    let mut bench = Bench::over(&mut words);
    run(&rt, &mut bench, &NOTHING);
    assert!(rt; words == [9; 4096]);
}

#[test]
fn lengths(rt: HostRuntime) {
    let words = [9; 4096];
    assert_eq!(rt;
        bench::check(&words).map_err(Refused::from),
        Err(Refused(144, 4096, 1))
    );
    assert_eq!(rt;
        bench::check(&words[0..4095]).map_err(Refused::from),
        Ok(())
    );
    assert_eq!(rt; bench::check(&words[0..1]).map_err(Refused::from), Ok(()));
    assert_eq!(rt;
        bench::check(&words[0..0]).map_err(Refused::from),
        Err(Refused(144, 0, 1))
    );
}
