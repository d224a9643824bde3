//! What becomes of the place of a contender after creates.

ghost use Rattle.std.specs.Prelude.{◌≡◌, Some, IfOk};
ghost use Rattle.zk_records.specs.Codes.{code_number};
ghost use Rattle.zk_conversation.specs.Views.{code_result};
ghost use Rattle.zk_client.specs.Views.{outcome_view};
ghost use Rattle.zk_contend.specs.declared.place.Place.TheVariants.{Making};
ghost use Rattle.zk_contend.specs.Hearing.{above, after_made, entered, entering, is_place, made, made_by, placed, unentered};

use crate::place::Place;
use std::alloc::{AllocError, Allocator};
use zk_client::{CallResult, Code, Outcome, Path, PathFault};

/// A copy of the path.
pub(crate) fn copied<A: Allocator + Copy>(alloc: A, path: &Path<A>) -> Result<Path<A>, AllocError>
    ensures { IfOk result (λ copy. copy ≡ path.now) }
{
    match Path::new(alloc, path.as_str()) {
        Ok(path) => Ok(path),
        Err(_) => Err(AllocError),
    }
}

/// The node of this path is to be made.
fn making<A: Allocator + Copy>(alloc: A, path: &str) -> Result<Option<Place<A>>, AllocError>
    ensures { IfOk result (λ place. place ≡ Some (Making path.now)) }
{
    match Path::new(alloc, path) {
        Ok(path) => Ok(Some(Place::Making { path })),
        Err(_) => Err(AllocError),
    }
}

/// What is to be made once the node of this path is there.
fn after_made<A: Allocator + Copy>(
    alloc: A,
    directory: &Path<A>,
    path: &Path<A>,
) -> Result<Option<Place<A>>, AllocError>
    ensures { IfOk result (λ place. place ≡ Some (after_made directory.now path.now)) }
{
    let directory = directory.as_str();
    if path.as_str() == directory {
        return Ok(Some(Place::Entering));
    }
    making(alloc, directory)
}

/// The node above this one is to be made first.
fn above<A: Allocator + Copy>(alloc: A, path: &Path<A>) -> Result<Option<Place<A>>, AllocError>
    ensures { IfOk result (λ place. place ≡ above path.now) }
{
    match path.parent() {
        Some(parent) => making(alloc, parent),
        None => Ok(None),
    }
}

fn after_code<A: Allocator + Copy>(
    alloc: A,
    directory: &Path<A>,
    path: &Path<A>,
    code: Code,
) -> Result<Option<Place<A>>, AllocError>
    ensures { IfOk result (λ place. place ≡ made_by directory.now path.now (code_result (code_number code))) }
{
    if code.is_no_node() {
        return above(alloc, path);
    }
    if code.number() != Code::NodeExists.number() {
        return Ok(None);
    }
    after_made(alloc, directory, path)
}

/// The place after a create of the directory, or of the node of this path above it; none if it stays as it was.
pub(crate) fn made<A: Allocator + Copy>(
    alloc: A,
    directory: &Path<A>,
    path: &Path<A>,
    outcome: &Outcome<A>,
) -> Result<Option<Place<A>>, AllocError>
    ensures { IfOk result (λ place. place ≡ made directory.now path.now (outcome_view outcome.now)) }
{
    match outcome {
        Outcome::Replied {
            result: CallResult::Created(_) | CallResult::Raw(_),
            ..
        } => after_made(alloc, directory, path),
        Outcome::Replied {
            result: CallResult::Code(code),
            ..
        } => after_code(alloc, directory, path, *code),
        _ => Ok(None),
    }
}

/// Whether the path lies in the directory, and its name begins so.
fn is_place<A: Allocator>(directory: &Path<A>, front: &str, path: &Path<A>) -> bool
    ensures { result ≡ is_place directory.now front.now path.now }
{
    let Some(parent) = path.parent() else {
        return false;
    };
    let Some(name) = path.name() else {
        return false;
    };
    parent == directory.as_str() && name.starts_with(front)
}

/// No place is there: one is to be made, unless the contender is given up.
pub(crate) fn entering<A: Allocator>(is_given_up: bool) -> Place<A>
    ensures { result ≡ entering is_given_up }
{
    if is_given_up {
        return Place::Left;
    }
    Place::Entering
}

/// The place once its create was answered with this path.
fn placed<A: Allocator + Copy>(
    alloc: A,
    directory: &Path<A>,
    front: &str,
    is_given_up: bool,
    text: &str,
) -> Result<Option<Place<A>>, AllocError>
    ensures { IfOk result (λ place. place ≡ Some (placed directory.now front.now is_given_up text.now)) }
{
    match Path::new(alloc, text) {
        Ok(own) => {
            if !is_place(directory, front, &own) {
                return Ok(Some(Place::Unsure));
            }
            if is_given_up {
                return Ok(Some(Place::Leaving { own }));
            }
            Ok(Some(Place::At { own, listing: None }))
        }
        Err(PathFault::Memory) => Err(AllocError),
        Err(_) => Ok(Some(Place::Unsure)),
    }
}

/// The place once its create was refused.
fn unentered<A: Allocator + Copy>(
    alloc: A,
    directory: &Path<A>,
    is_given_up: bool,
    code: Code,
) -> Result<Option<Place<A>>, AllocError>
    ensures { IfOk result (λ place. place ≡ unentered directory.now is_given_up (code_result (code_number code))) }
{
    if is_given_up {
        return Ok(Some(Place::Left));
    }
    if !code.is_no_node() {
        return Ok(None);
    }
    making(alloc, directory.as_str())
}

/// The place after its create; none if it stays as it was.
pub(crate) fn entered<A: Allocator + Copy>(
    alloc: A,
    directory: &Path<A>,
    front: &str,
    is_given_up: bool,
    outcome: &Outcome<A>,
) -> Result<Option<Place<A>>, AllocError>
    ensures { IfOk result (λ place. place ≡ entered directory.now front.now is_given_up (outcome_view outcome.now)) }
{
    match outcome {
        Outcome::Replied {
            result: CallResult::Created(text),
            ..
        } => placed(alloc, directory, front, is_given_up, text.as_str()),
        Outcome::Replied {
            result: CallResult::Code(code),
            ..
        } => unentered(alloc, directory, is_given_up, *code),
        Outcome::Replied {
            zxid,
            result: CallResult::Raw(_),
        } => Ok(Some(Place::Looking { answered: *zxid })),
        Outcome::Replied { .. } | Outcome::ConnectionLoss => Ok(Some(Place::Unsure)),
        _ if is_given_up => Ok(Some(Place::Left)),
        _ => Ok(None),
    }
}
