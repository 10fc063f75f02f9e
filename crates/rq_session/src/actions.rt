//! What is to be done for a session.
use rq_engine::event::{CommitNo, Event};
use rq_wire::Answer;

/// What is to be done next for a session.
#[derive(Drop)]
pub enum Action {
    /// Make this call, and tell the session what it answered.
    Do(Event),
    /// Make this call again, after others had a chance to go on.
    Again(Event),
    /// Ask for the receipt of this commit (`Event::Acknowledged`), and tell the session each reply, until it asks for something else.
    Await(CommitNo),
    /// Write this answer: it is the one to the request under way.
    Answer(Answer),
    /// The session has ended: it asks and answers nothing more.
    End,
}
