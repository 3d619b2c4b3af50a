//! The turns that are stated for a rig.
ghost use Rattle.std.specs.Prelude.{◌≡◌, ◌<◌, All, IfOk, IfSome, Some, None, option_map, if◌then◌else◌};
ghost use Rattle.s7_args.specs.CommandLine.{number_of};
ghost use Rattle.s7_args.specs.Tool.{is_actor, turns_or_none};

use std::alloc::{AllocError, Global};

/// The turns that a text states, as actors below `count`; `None` if the text has another form. Without a text there are
/// no turns.
pub(crate) fn read_turns(
    alloc: Global,
    given: Option<&str>,
    count: u32,
) -> Result<Option<Vec<u32>>, AllocError>
    ensures told { IfOk result (λ r. option_map (λ turns. turns.items) r
        ≡ turns_or_none count (option_map (λ text. text.now) given.entry)) }
    ensures actors { IfOk result (λ r. IfSome r (λ turns. All (λ turn. turn < count) turns.items)) }
{
    let mut turns = Vec::new(alloc);
    let Some(text) = given else {
        return Ok(Some(turns));
    };
    let parts: Vec<&str> = text.split(',').collect(alloc)?;
    for part in &parts {
        let Some(actor) = read_actor(part, count) else {
            return Ok(None);
        };
        turns.push(actor)?;
    }
    Ok(Some(turns))
}

/// The number of an actor below `count`; `None` if the text has another form.
fn read_actor(text: &str, count: u32) -> Option<u32>
    ensures { result ≡ (if is_actor count text.now then Some (number_of text.now) else None) }
{
    match text.parse::<u32>() {
        Ok(actor) if actor < count => Some(actor),
        _ => None,
    }
}
