//! What the texts of runs show.
ghost use Rattle.laws_text.specs.TextSecrecy.{TextsAreIsolated, TextsFromNothingAreIsolated, TextsKeepSecrets};

use laws_run::{isolation, secrecy};

/// What is written of replies shows no more than they do, however replies are written, as long as
/// each text is that of the reply in a run of the calls. In two runs that show a party the same,
/// the texts of the replies to it are the same bytes, one for one. In two runs that differ in votes
/// of some voters on a resolution alone, the texts of the replies to the office are, but where it
/// asks for the declaration of the resolution; and before the declaration so are those to every
/// party that is none of the voters.
pub fn texts_show_no_more()
    ensures isolated { TextsAreIsolated }
    ensures from_nothing { TextsFromNothingAreIsolated }
    ensures secret { TextsKeepSecrets }
{
    isolation();
    secrecy();
}
