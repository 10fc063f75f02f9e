//! Where connections come in.
use mio::net::{TcpListener, TcpStream};
use std::io::{Error, ErrorKind};

/// The listener, which does not block, and how many sessions may still begin; None where there is no end to them. Workers take
/// connections by turns, under one lock on it.
#[derive(Drop)]
pub(crate) struct Door {
    listener: TcpListener,
    left: Option<u64>,
    is_shut: bool,
}

/// What came of a look at the door.
#[derive(Drop)]
pub(crate) enum Entered {
    /// A connection.
    Connection(TcpStream),
    /// A connection that was lost before it was taken, which is no session.
    Lost,
    /// No connection stands there: the next one is reported.
    Nobody,
    /// No connection can be taken just now. One may stand there still, and is not reported again.
    NoRoom(Error),
    /// No session may begin any more.
    Closed,
}

impl Door {
    /// With no end where `sessions` is 0.
    pub(crate) fn new(listener: TcpListener, sessions: u64) -> Self {
        let left = if sessions == 0 { None } else { Some(sessions) };
        Door {
            listener,
            left,
            is_shut: false,
        }
    }

    /// No session may begin any more, and those that have begun are to end.
    pub(crate) fn shut(&mut self) {
        self.left = Some(0);
        self.is_shut = true;
    }

    /// Whether sessions are to end.
    pub(crate) fn is_shut(&self) -> bool {
        self.is_shut
    }

    /// Whether no session may begin any more.
    pub(crate) fn is_closed(&self) -> bool {
        self.left == Some(0)
    }

    /// The next connection that stands there.
    pub(crate) fn next(&mut self) -> Entered {
        if self.is_closed() {
            return Entered::Closed;
        }
        match self.listener.accept() {
            Ok((stream, _)) => {
                self.left = self.left.map(|left| left.saturating_sub(1));
                Entered::Connection(stream)
            }
            Err(error) if error.kind() == ErrorKind::WouldBlock => Entered::Nobody,
            Err(error) if error.kind() == ErrorKind::ConnectionAborted => Entered::Lost,
            Err(error) => Entered::NoRoom(error),
        }
    }
}
