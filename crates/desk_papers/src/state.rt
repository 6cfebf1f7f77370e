//! How far a resolution has come.
ghost use Rattle.std.specs.Prelude.{◌≡◌};
ghost use Rattle.desk_papers.specs.States.{polled_state, state_of, state_word};

use desk_words::{Declaration, Poll, ResKind, result_of};

/// How far a resolution has come.
#[derive(Clone, Copy)]
pub(crate) enum State {
    /// No poll is ordered on it.
    NoPoll,
    /// Its poll is ordered (section 321) and not started.
    Ordered,
    /// Its poll is started and not closed.
    Open,
    /// Its poll is closed, and the result is not declared.
    Closed,
    /// Its poll is declared (sections 282 and 283).
    Declared(Declaration),
}

fn polled_state(kind: ResKind, poll: &Poll) -> State
    ensures { result ≡ polled_state kind poll.now }
{
    match (poll.declared, poll.closed, poll.started) {
        (Some(tally), _, _) => State::Declared(result_of(kind, tally)),
        (None, Some(_), _) => State::Closed,
        (None, None, Some(_)) => State::Open,
        (None, None, None) => State::Ordered,
    }
}

/// The state of a resolution of this kind, with the poll on it if one is ordered.
pub(crate) fn state_of(kind: ResKind, poll: Option<Poll>) -> State
    ensures { result ≡ state_of kind poll }
{
    match poll {
        None => State::NoPoll,
        Some(poll) => polled_state(kind, &poll),
    }
}

/// The words for it.
pub(crate) fn state_word(state: State) -> &'static str
    ensures { result.now ≡ state_word state }
{
    match state {
        State::NoPoll => "no poll",
        State::Ordered => "poll ordered",
        State::Open => "poll open",
        State::Closed => "poll closed",
        State::Declared(declaration) => {
            if declaration.carried {
                "carried"
            } else {
                "lost"
            }
        }
    }
}
