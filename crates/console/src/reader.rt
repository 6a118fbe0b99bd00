//! The bytes of one call row, read front to back by the reader of script texts.
ghost use Rattle.std.specs.Prelude.{◌≡◌, [], vec_items};
ghost use Rattle.script.specs.Readers.{left, Reads};
ghost use Rattle.rules.specs.Calling.{natural, request_of};
ghost use Rattle.console.specs.declared.reader.RowError.TheVariants.{Unreadable, Memory};
ghost use Rattle.console.specs.Requests.{word_at, argument_at, arguments_on, arguments_for, values_at, request_at};
ghost use Rattle.console.specs.Readers.{Gives, itself};

use rules::calls::{Argument, Request};
use script::fault::ByteFault;
use script::reader::Reader;
use std::alloc::{AllocFailed, Global};

/// Why a row gives no request: it is no call row, or memory was short.
#[derive(Clone, Copy)]
pub enum RowError {
    /// It is no call row.
    Unreadable,
    /// Memory was short.
    Memory,
}

impl From<ByteFault> for RowError {
    ghost from_gives = { λ _ r. r ≡ Unreadable };

    fn from(_e: ByteFault) -> RowError {
        RowError::Unreadable
    }
}

impl<T: Drop> From<AllocFailed<T>> for RowError {
    ghost from_gives = { λ _ r. r ≡ Memory };

    fn from(_e: AllocFailed<T>) -> RowError {
        RowError::Memory
    }
}

/// The word of a call.
#[derive(Clone, Copy)]
pub enum Word {
    Make,
    Post,
    Turn,
    Collect,
    Note,
}

/// The word of a call.
fn call_word(reader: &mut Reader<'_>) -> Result<Word, RowError>
    ensures { Gives itself result (word_at (left reader.old)) reader.new }
{
    // A test for each word: a `match`, or a `TryFrom`, asks for the word's bytes, and how many they are is known only once the word is read.
    let word = if reader.spells(b"make") {
        Word::Make
    } else if reader.spells(b"post") {
        Word::Post
    } else if reader.spells(b"turn") {
        Word::Turn
    } else if reader.spells(b"collect") {
        Word::Collect
    } else if reader.spells(b"note") {
        Word::Note
    } else {
        return Err(RowError::Unreadable);
    };
    Ok(word)
}

/// A number and its label.
fn argument(reader: &mut Reader<'_>) -> Result<Argument, ByteFault>
    ensures { Reads result (argument_at (left reader.old)) reader.old reader.new }
{
    Ok(Argument {
        number: reader.column()?,
        label: reader.column()?,
    })
}

/// So many arguments.
#[tactic(auto, using(crate::proofs::Counting::one_more))]
fn arguments(heap: Global, reader: &mut Reader<'_>, count: u32) -> Result<Vec<Argument>, RowError>
    ensures { Gives vec_items result (arguments_on [] count (left reader.old)) reader.new }
{
    let mut arguments = Vec::new(heap);
    // A `for`: each turn reads on, which a closure would hide.
    for _ in 0..count {
        arguments.push(argument(reader)?)?;
    }
    Ok(arguments)
}

/// As many arguments as `count` says. A negative count is unreadable.
fn counted_arguments(
    heap: Global,
    count: i32,
    reader: &mut Reader<'_>,
) -> Result<Vec<Argument>, RowError>
    ensures { Gives vec_items result (arguments_for (natural count) (left reader.old)) reader.new }
{
    let count = u32::try_from(count).map_err(|_| RowError::Unreadable)?;
    arguments(heap, reader, count)
}

/// The values after a call's word, for a party of the level `bearer`.
fn values(
    heap: Global,
    reader: &mut Reader<'_>,
    word: Word,
    bearer: i32,
) -> Result<Request, RowError>
    ensures { Gives request_of result (values_at word bearer (left reader.old)) reader.new }
{
    let request = match word {
        Word::Make => Request::Make {
            bearer,
            class: reader.column()?,
            level: reader.column()?,
        },
        Word::Post => Request::Post {
            bearer,
            home: reader.column()?,
            number: reader.column()?,
            method: reader.column()?,
            arguments: counted_arguments(heap, reader.column()?, reader)?,
        },
        Word::Turn => Request::Turn {
            bearer,
            home: reader.column()?,
            number: reader.column()?,
        },
        Word::Collect => Request::Collect {
            bearer,
            home: reader.column()?,
            number: reader.column()?,
        },
        Word::Note => Request::Take {
            bearer,
            class: reader.column()?,
        },
    };
    Ok(request)
}

/// The request that stands next: the party's level, the call's word and its values.
pub fn request(heap: Global, reader: &mut Reader<'_>) -> Result<Request, RowError>
    ensures { Gives request_of result (request_at (left reader.old)) reader.new }
{
    let bearer = reader.number()?;
    reader.space()?;
    let word = call_word(reader)?;
    values(heap, reader, word, bearer)
}
