ghost use Rattle.std.specs.Prelude.{◌&&◌, ◌==◌, nat_eq};
ghost use Rattle.std.proofs.Common.{rules};

use super::*;
use std::test::Fail;

// The name of an object: its home level and its number there.
#[derive(Clone, Copy, PartialEq, Debug)]
struct Name {
    home: u8,
    number: u32,
}

// A call in line for the object of that name.
#[derive(Clone, Copy, PartialEq, Debug)]
struct Call {
    receiver: Name,
    argument: u8,
}

impl Element for Call {
    type Key = Name;

    ghost key_of = { λ c. c.receiver };

    ghost same = { λ a b. (a.home == b.home) && a.number == b.number };

    ghost tells = { Prim.search rules };

    ghost exact = { Prim.search rules };

    ghost itself = { Prim.search rules };

    fn key(&self) -> Name {
        self.receiver
    }
}

// A note in line for a reader of its class.
#[derive(Clone, Copy, PartialEq, Debug)]
struct Note {
    class: u8,
    text: u16,
}

impl Element for Note {
    type Key = u8;

    ghost key_of = { λ n. n.class };

    ghost same = { nat_eq };

    ghost tells = { Prim.search rules };

    ghost exact = { Prim.search rules };

    ghost itself = { Prim.search rules };

    fn key(&self) -> u8 {
        self.class
    }
}

// How many notes a level has room for.
const NOTES: usize = 16;

// How many objects a level has room for.
const OBJECTS: usize = 8;

fn call_to(number: u32, argument: u8) -> Call {
    let receiver = Name { home: 1, number };
    Call { receiver, argument }
}

#[test]
fn sixteen_fit(rt: HostRuntime) -> Result<(), Fail> {
    let mut slots = [None; NOTES];
    for place in 0..NOTES {
        assert_eq!(rt; add(&mut slots, Note { class: 3, text: 1 }), Ok(place));
    }
    let one_more = Note { class: 3, text: 2 };
    assert_eq!(rt; add(&mut slots, one_more), Err(one_more));
    Ok(())
}

#[test]
fn eight_fit_at_a_level(rt: HostRuntime) -> Result<(), Fail> {
    let mut table = [None; 16];
    for number in 0..OBJECTS {
        assert_eq!(rt; add_at(&mut table, OBJECTS, 1, 'o'), Ok(number));
    }
    assert_eq!(rt; add_at(&mut table, OBJECTS, 1, 'p'), Err('p'));
    assert_eq!(rt; count_at(&table, OBJECTS, 1), OBJECTS);
    assert_eq!(rt; count_at(&table, OBJECTS, 0), 0);
    Ok(())
}

#[test]
fn oldest_first(rt: HostRuntime) -> Result<(), Fail> {
    let mut slots = [None; 3];
    let first = call_to(7, 1);
    let other = call_to(8, 2);
    let second = call_to(7, 3);
    assert!(rt; add(&mut slots, first).is_ok());
    assert!(rt; add(&mut slots, other).is_ok());
    assert!(rt; add(&mut slots, second).is_ok());
    let Some((place, _)) = look(&slots, first.receiver) else {
        return Err(Fail::new("none is found"));
    };
    assert_eq!(rt; take(&mut slots, place), first);
    assert_eq!(rt; look(&slots, first.receiver), Some((1, second)));
    assert_eq!(rt; add(&mut slots, first), Ok(2));
    assert_eq!(rt; slots, [Some(other), Some(second), Some(first)]);
    Ok(())
}

#[test]
fn replace_keeps_the_place(rt: HostRuntime) -> Result<(), Fail> {
    let mut slots = [None; 3];
    assert!(rt; add(&mut slots, call_to(7, 1)).is_ok());
    assert!(rt; add(&mut slots, call_to(8, 2)).is_ok());
    let Some((place, found)) = look(&slots, call_to(7, 0).receiver) else {
        return Err(Fail::new("none is found"));
    };
    replace(
        &mut slots,
        place,
        Call {
            argument: 9,
            ..found
        },
    );
    assert_eq!(rt; slots, [Some(call_to(7, 9)), Some(call_to(8, 2)), None]);
    Ok(())
}

#[test]
fn levels_stay_apart(rt: HostRuntime) -> Result<(), Fail> {
    let mut table = [None; 48];
    let high = Note { class: 3, text: 1 };
    let low = Note { class: 3, text: 2 };
    assert_eq!(rt; add_at(&mut table, NOTES, 2, high), Ok(0));
    assert_eq!(rt; add_at(&mut table, NOTES, 0, low), Ok(0));
    assert_eq!(rt; look_at(&table, NOTES, 1, 3), None);
    assert_eq!(rt; entry_at(&table, NOTES, 0, 32), None);
    let Some((place, _)) = look_at(&table, NOTES, 2, 3) else {
        return Err(Fail::new("none is found"));
    };
    replace_at(&mut table, NOTES, 2, place, Note { class: 4, text: 1 });
    assert_eq!(rt; take_at(&mut table, NOTES, 2, place).class, 4);
    assert_eq!(rt; entry_at(&table, NOTES, 2, 0), None);
    assert_eq!(rt; entry_at(&table, NOTES, 0, 0), Some(low));
    Ok(())
}
