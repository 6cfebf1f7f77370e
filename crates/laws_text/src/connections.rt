//! What is written to one connection of a listener after another.
ghost use Rattle.laws_text.specs.Connections.{ConnectionsAnswerRuns, ConnectionsAreIsolated};

use crate::texts::texts_show_no_more;
use any_office::Office;
use tcp_close::Listener;
use wall_clock::Clock;

/// What `serve_loop` writes to one connection after another, whether it ends well or by a fault, are
/// the texts of a run: each is the text of the reply to the call of the caller whose key came, at the
/// moment that the clock gave, or of the refusal of what is no call, or it reports a failure. It
/// stands on the sink of the peer that asked, or a part of it where that sink failed. A turn without
/// a text had a peer that was gone, or one whose source failed.
pub fn connections_are_answered<O: Office, L: Listener, C: Clock>()
    ensures { ConnectionsAnswerRuns L.Listener L.Reader.Source L.Writer.Sink C.Clock O.Office }
{}

/// So two whole lists of connections, each from an office that holds nothing, are isolated: where
/// the calls that were made on them show a party the same, with all its sources in either, what
/// answers it on its connections is the same bytes, one for one.
pub fn connections_show_no_more<O: Office, L: Listener, C: Clock>()
    ensures { ConnectionsAreIsolated L.Listener L.Reader.Source L.Writer.Sink C.Clock O.Office }
{
    texts_show_no_more();
}
