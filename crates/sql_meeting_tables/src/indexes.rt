//! The indexes, by which a party's rows and the votes on a resolution are found where their columns
//! are not the first of a key of the table.
ghost use Rattle.sql_schema.specs.Tables.{appointments_by_proxy, appointments_table, authorities_by_person, authorities_table, casts_by_resolution, casts_by_voter, casts_table, demands_by_party, demands_table, demands_before_sessions_by_party, demands_before_sessions_table, presences_by_party, presences_table, up_to_appointments_by_proxy, up_to_authorities_by_person, up_to_casts, up_to_demands_by_party, up_to_demands_before_sessions_by_party, up_to_polls, up_to_presences_by_party};
ghost use Rattle.sql_meeting_tables.specs.TableIndexes.{appointments_by_proxy_made, authorities_by_person_made, casts_by_resolution_made, casts_by_voter_made, demands_by_party_made, demands_before_sessions_by_party_made, presences_by_party_made};

use sql_stored::StoredIndex;

/// The index of appointments by the proxy, after the last table.
pub struct AppointmentsByProxy;

impl StoredIndex for AppointmentsByProxy {
    ghost before = { up_to_casts };

    ghost on = { record appointments_table { tree = 12 } };

    ghost index = { appointments_by_proxy };

    fn making() -> &'static str {
        "CREATE INDEX appointments_by_proxy ON appointments (meeting, proxy)"
    }

    ghost makes = { appointments_by_proxy_made };
}

/// The index of authorities by the person, after that of appointments.
pub struct AuthoritiesByPerson;

impl StoredIndex for AuthoritiesByPerson {
    ghost before = { up_to_appointments_by_proxy };

    ghost on = { record authorities_table { tree = 16 } };

    ghost index = { authorities_by_person };

    fn making() -> &'static str {
        "CREATE INDEX authorities_by_person ON authorities (meeting, person)"
    }

    ghost makes = { authorities_by_person_made };
}

/// The index of demands by the party, after that of authorities.
pub struct DemandsBeforeSessionsByParty;

impl StoredIndex for DemandsBeforeSessionsByParty {
    ghost before = { up_to_authorities_by_person };

    ghost on = { record demands_before_sessions_table { tree = 20 } };

    ghost index = { demands_before_sessions_by_party };

    fn making() -> &'static str {
        "CREATE INDEX demands_by_party ON demands (meeting, party)"
    }

    ghost makes = { demands_before_sessions_by_party_made };
}

/// The index of votes by the voter, after that of demands.
pub struct CastsByVoter;

impl StoredIndex for CastsByVoter {
    ghost before = { up_to_demands_before_sessions_by_party };

    ghost on = { record casts_table { tree = 24 } };

    ghost index = { casts_by_voter };

    fn making() -> &'static str {
        "CREATE INDEX casts_by_voter ON casts (meeting, voter)"
    }

    ghost makes = { casts_by_voter_made };
}

/// The index of the presences of version 2 by the party, after its tables.
pub struct PresencesByParty;

impl StoredIndex for PresencesByParty {
    ghost before = { up_to_polls };

    ghost on = { record presences_table { tree = 31 } };

    ghost index = { presences_by_party };

    fn making() -> &'static str {
        "CREATE INDEX presences2_by_party ON presences2 (meeting, party)"
    }

    ghost makes = { presences_by_party_made };
}

/// The index of the demands of version 2 by the party, after that of presences.
pub struct DemandsByParty;

impl StoredIndex for DemandsByParty {
    ghost before = { up_to_presences_by_party };

    ghost on = { record demands_table { tree = 33 } };

    ghost index = { demands_by_party };

    fn making() -> &'static str {
        "CREATE INDEX demands2_by_party ON demands2 (meeting, party)"
    }

    ghost makes = { demands_by_party_made };
}

/// The index of votes by the resolution and the voter, the last of all.
pub struct CastsByResolution;

impl StoredIndex for CastsByResolution {
    ghost before = { up_to_demands_by_party };

    ghost on = { record casts_table { tree = 24 } };

    ghost index = { casts_by_resolution };

    fn making() -> &'static str {
        "CREATE INDEX casts_by_resolution ON casts (meeting, resolution, voter)"
    }

    ghost makes = { casts_by_resolution_made };
}
