//! What an open store is.
ghost use Rattle.std.specs.Prelude.{◌≡◌, pos};
ghost use Rattle.std.specs.Option.{unwrap_or};
ghost use Rattle.cola_spec.specs.Map.{Map, count};
ghost use Rattle.cola_kv.specs.Told.{info_of, level_of};
ghost use Rattle.cola_handle.specs.declared.answer.Answer.TheVariants as answer;
ghost use Rattle.cola_handle.specs.Numbers.{number as number_of};
ghost use Rattle.cola_handle.specs.Open.{HoldsMap};
ghost use Rattle.cola_c.specs.Exports.{AnswersClosed, IfClosed, IfOpen};
ghost use Rattle.cola_c.specs.Told.{has};

use cola_handle::{Answer, Cola};
use cola_kv::{Info, LevelInfo};
use std::alloc::Global;

/// What the store is: its sizes, how many keys it has, and its bounds.
#[unsafe(no_mangle)]
pub extern "C" fn cola_core_info(alloc: Global, cola: &mut Cola, info: &mut Info) -> i32
    ensures closed { IfClosed cola.old (AnswersClosed cola.new result × (info.new ≡ info.old)) }
    ensures stays { cola.new.owned.session ≡ cola.old.owned.session }
    ensures done { IfOpen cola.old (λ _. result ≡ pos (number_of answer.Done)) }
    ensures told { IfOpen cola.old (λ session. info.new ≡ info_of session.kv) }
    ensures counted { IfOpen cola.old (λ session. (m : Map) → HoldsMap session m → info.new.count ≡ count m) }
{
    let Some(session) = cola.take(alloc) else {
        return Answer::Closed.code();
    };
    *info = session.kv.info();
    cola.put(alloc, session);
    Answer::Done.code()
}

/// How far a level of the store is filled; absent where it has no such level.
#[unsafe(no_mangle)]
pub extern "C" fn cola_core_level(
    alloc: Global,
    cola: &mut Cola,
    number: u8,
    level: &mut LevelInfo,
) -> i32
    ensures closed { IfClosed cola.old (AnswersClosed cola.new result × (level.new ≡ level.old)) }
    ensures stays { cola.new.owned.session ≡ cola.old.owned.session }
    ensures answered { IfOpen cola.old (λ session.
        result ≡ pos (number_of (has (level_of session.kv number)))) }
    ensures told { IfOpen cola.old (λ session.
        level.new ≡ unwrap_or (level_of session.kv number) level.old) }
{
    let Some(session) = cola.take(alloc) else {
        return Answer::Closed.code();
    };
    let told = session.kv.level(number);
    cola.put(alloc, session);
    match told {
        Some(told) => {
            *level = told;
            Answer::Done.code()
        }
        None => Answer::Absent.code(),
    }
}
