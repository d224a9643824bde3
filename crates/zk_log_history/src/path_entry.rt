//! What an entry makes of what is known of one path.

ghost use Rattle.std.specs.Prelude.{◌≡◌, map};
ghost use Rattle.zk_nodes.specs.Path.{path_of};
ghost use Rattle.zk_log.specs.Views.{kind_of, body_of, part_of, entry_of};
ghost use Rattle.zk_log_history.specs.Known.{all_told, end_told, entry_told, gone_told, known_of, operation_told, part_told, parts_told};
ghost use Rattle.zk_log_history.specs.inner.Known.{Gives};

use crate::knowledge::{Knowledge, is_at, left_by, with_change};
use crate::operation::{operation_change, path_at};
use crate::telling::{has_failed, part_change};
use crate::untold::Untold;
use std::alloc::Allocator;
use zk_jute::{List, Text};
use zk_log::{LogEntry, PartTxn, Txn};
use zk_nodes::Path;

/// What is known after an operation.
fn with_operation<A: Allocator + Copy>(
    alloc: A,
    path: &Path<A>,
    entry: &LogEntry<'_, A>,
    txn: &Txn<'_, A>,
    known: Knowledge<A>,
) -> Result<Knowledge<A>, Untold>
    ensures { Gives result
        (operation_told (path_of path.now) (entry_of entry.now) (kind_of txn.now) (body_of txn.now) (known_of known)) }
{
    match operation_change(alloc, entry.session, txn) {
        Err(why) => Err(why),
        Ok(change) => with_change(path, entry, change, known),
    }
}

/// What is known after a part of a multi.
fn with_part<A: Allocator + Copy>(
    alloc: A,
    path: &Path<A>,
    entry: &LogEntry<'_, A>,
    part: &PartTxn<A>,
    known: Knowledge<A>,
) -> Result<Knowledge<A>, Untold>
    ensures { Gives result (part_told (path_of path.now) (entry_of entry.now) (part_of part.now) (known_of known)) }
{
    match part_change(alloc, entry.session, part) {
        Err(why) => Err(why),
        Ok(change) => with_change(path, entry, change, known),
    }
}

/// What is known after the parts of a multi: none has changed anything if one has failed.
fn with_parts<A: Allocator + Copy>(
    alloc: A,
    path: &Path<A>,
    entry: &LogEntry<'_, A>,
    parts: &[PartTxn<A>],
    before: Knowledge<A>,
) -> Result<Knowledge<A>, Untold>
    ensures { Gives result (parts_told (path_of path.now) (entry_of entry.now) (map part_of parts.now) (known_of before)) }
{
    if has_failed(parts) {
        return Ok(before);
    }
    let mut known = before;
    for part in parts {
        known = with_part(alloc, path, entry, part, known)?;
    }
    Ok(known)
}

/// What is known after a session whose end tells a path.
fn with_gone<A: Allocator>(
    alloc: A,
    path: &Path<A>,
    gone: &Text<A>,
    known: Knowledge<A>,
) -> Result<Knowledge<A>, Untold>
    ensures { Gives result (gone_told (path_of path.now) gone.now (known_of known)) }
{
    match path_at(alloc, gone.as_str()) {
        Err(why) => Err(why),
        Ok(other) => {
            if is_at(path, &other) {
                Ok(Knowledge::Known(None))
            } else {
                Ok(known)
            }
        }
    }
}

/// What is known after a session whose end tells these paths.
fn with_all_gone<A: Allocator + Copy>(
    alloc: A,
    path: &Path<A>,
    paths: &[Text<A>],
    before: Knowledge<A>,
) -> Result<Knowledge<A>, Untold>
    ensures { Gives result (all_told (gone_told (path_of path.now)) paths.now (known_of before)) }
{
    let mut known = before;
    for gone in paths {
        known = with_gone(alloc, path, gone, known)?;
    }
    Ok(known)
}

/// What is known after the end of a session.
fn with_end<A: Allocator + Copy>(
    alloc: A,
    path: &Path<A>,
    entry: &LogEntry<'_, A>,
    paths: &[Text<A>],
    known: Knowledge<A>,
) -> Result<Knowledge<A>, Untold>
    ensures { Gives result (end_told (path_of path.now) (entry_of entry.now) paths.now (known_of known)) }
{
    match with_all_gone(alloc, path, paths, known) {
        Err(why) => Err(why),
        Ok(known) => Ok(left_by(entry.session, known)),
    }
}

/// What is known after an entry, by what it does.
pub(crate) fn with_entry<A: Allocator + Copy>(
    alloc: A,
    path: &Path<A>,
    entry: &LogEntry<'_, A>,
    txn: &Txn<'_, A>,
    known: Knowledge<A>,
) -> Result<Knowledge<A>, Untold>
    ensures { Gives result (entry_told (path_of path.now) (entry_of entry.now) (kind_of txn.now) (body_of txn.now) (known_of known)) }
{
    match txn {
        Txn::Multi(parts) => with_parts(alloc, path, entry, parts.or_empty(), known),
        Txn::CloseSession(paths) => with_end(alloc, path, entry, paths.or_empty(), known),
        Txn::CloseSessionAlone => {
            let none: List<Text<A>, A> = List { elements: None };
            with_end(alloc, path, entry, none.or_empty(), known)
        }
        txn => with_operation(alloc, path, entry, txn, known),
    }
}
