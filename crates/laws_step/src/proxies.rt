//! Which proxy a vote is ruled by.
ghost use Rattle.laws_step.specs.Proxies.{InstructedByTheRules, InstructionsBindByTheRules, ProxiesGovernByTheRules};

/// A party governs a member's share for a poll, late or not, as is read from its own things alone,
/// exactly where the appointment that governs the share by the rules names it. Its vote as proxy is
/// against an instruction exactly where such an appointment instructs it otherwise on some share of
/// the range, and what it casts as instructed is refused for want of an instruction exactly where
/// no such appointment instructs it on any share.
pub fn proxies_cast_by_the_rules()
    ensures governs { ProxiesGovernByTheRules }
    ensures against { InstructionsBindByTheRules }
    ensures instructed { InstructedByTheRules }
{}
