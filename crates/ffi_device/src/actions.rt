//! Actions as numbers.

ghost use Rattle.std.specs.Prelude.{◌≡◌, pos};
ghost use Rattle.ffi_device.specs.Flats.{plain, side_number};
ghost use Rattle.ffi_device.specs.Actions.{action_flat, action_text, news_flat, news_text, refusal_flat};

use crate::flat::{
    Flat, answer_flat, drop_flat, outcome_text, plain, report_flat, send_flat, state_flat,
};
use std::alloc::Global;
use zk_agent::Action;
use zk_client::Side;
use zk_follow::Refusal;
use zk_trees::TreeNews;

// An action of this kind that is about the call or the subject of a ticket.
fn about(flat: Flat, ticket: u64) -> Flat
    ensures { result ≡ record flat { ticket = ticket } }
{
    let mut flat = flat;
    flat.ticket = ticket;
    flat
}

// Why a read was refused.
fn refusal_flat(why: Refusal) -> Flat
    ensures { result ≡ refusal_flat why }
{
    match why {
        Refusal::Code(code) => {
            let mut flat = plain(11, 1);
            flat.code = code;
            flat
        }
        Refusal::TooManyWatches => plain(11, 2),
        Refusal::TooLarge => plain(11, 3),
        Refusal::SessionClosed => plain(11, 4),
    }
}

// An address is to be dialled.
fn dial_flat(place: usize, within_ms: u64) -> Flat
    ensures { result ≡ record (plain (pos 6) (pos 0)) { ticket = within_ms; names = place } }
{
    let mut flat = plain(6, 0);
    flat.ticket = within_ms;
    flat.names = place;
    flat
}

// The number of a side.
fn side_number(side: Side) -> i32
    ensures { result ≡ side_number side }
{
    match side {
        Side::Data => 1,
        Side::Child => 2,
    }
}

// News of a tree about a node.
fn about_node(flat: Flat, tree: u64, ticket: u64) -> Flat
    ensures { result ≡ record flat { ticket = ticket; names = tree } }
{
    let mut flat = about(flat, ticket);
    flat.names = tree as usize;
    flat
}

// A side of a node is taken on, whose path has this length.
fn taken_on_flat(tree: u64, ticket: u64, side: Side, length: usize) -> Flat
    ensures { result ≡ record (plain (pos 12) (pos 0)) { ticket = ticket; names = tree; result = side_number side; length = length } }
{
    let mut flat = about_node(plain(12, 0), tree, ticket);
    flat.result = side_number(side);
    flat.length = length;
    flat
}

// News of a tree, as numbers.
fn news_flat(news: &TreeNews<Global>) -> Flat
    ensures { result ≡ news_flat news.now }
{
    match news {
        TreeNews::MemberAdded {
            tree,
            ticket,
            side,
            path,
        } => taken_on_flat(*tree, *ticket, *side, path.as_str().len()),
        TreeNews::MemberRemoved { tree, ticket } => about_node(plain(13, 0), *tree, *ticket),
        TreeNews::Bounded { tree, is_bounded } => {
            let mut flat = about(plain(14, 0), *tree);
            flat.is_null = *is_bounded;
            flat
        }
        TreeNews::Complete { tree } => about(plain(15, 0), *tree),
    }
}

// The text of what is told of a tree: the path of what is taken on, and else nothing.
fn news_text(news: &TreeNews<Global>) -> &[u8]
    ensures { result.now ≡ news_text news.now }
{
    match news {
        TreeNews::MemberAdded { path, .. } => path.as_str().as_bytes(),
        _ => b"",
    }
}

// The answer to a credential.
fn judged_flat(at: usize, code: i32) -> Flat
    ensures { result ≡ record (plain (pos 16) (pos 0)) { code = code; names = at } }
{
    let mut flat = plain(16, 0);
    flat.names = at;
    flat.code = code;
    flat
}

/// An action, as numbers.
pub(crate) fn action_flat(action: &Action<Global>) -> Flat
    ensures { result ≡ action_flat action.now }
{
    match action {
        Action::Dial { place, within_ms } => dial_flat(*place, *within_ms),
        Action::HangUp => plain(7, 0),
        Action::Send(bytes) => send_flat(bytes.as_slice()),
        Action::Introduce(credential) => send_flat(credential.as_bytes()),
        Action::Credential { place, code } => judged_flat(*place, *code),
        Action::Answer { ticket, outcome } => answer_flat(*ticket, outcome),
        Action::TimedOut { ticket, was_sent } => {
            let mut flat = about(plain(8, 0), *ticket);
            flat.is_null = *was_sent;
            flat
        }
        Action::Report { path, side, event } => report_flat(path.as_bytes(), *side, *event),
        Action::State(state) => state_flat(*state),
        Action::GivenUp(fault) => drop_flat(*fault),
        Action::Renewed => plain(9, 0),
        Action::Shown { ticket } => about(plain(10, 0), *ticket),
        Action::Refused { ticket, why } => about(refusal_flat(*why), *ticket),
        Action::Tree(news) => news_flat(news),
    }
}

/// The text of an action: a frame, the text of an answer, a path or the code of a fault, and else nothing.
pub(crate) fn action_text(action: &Action<Global>) -> &[u8]
    ensures { result.now ≡ action_text action.now }
{
    match action {
        Action::Send(bytes) => bytes.as_slice(),
        Action::Introduce(credential) => credential.as_bytes(),
        Action::Answer { outcome, .. } => outcome_text(outcome),
        Action::Report { path, .. } => path.as_bytes(),
        Action::GivenUp(fault) => fault.code().as_bytes(),
        Action::Tree(news) => news_text(news),
        _ => b"",
    }
}
