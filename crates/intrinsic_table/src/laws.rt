//! What is known of the table, as the contract of a function that does nothing.
ghost use Rattle.intrinsic_table.specs.TableLaws.{NamesDiffer, KeywordsDiffer, PlacesAreCounted, NeededStandFirst};

/// The laws of the table: names and keywords differ, places are counted from 0, arguments that are needed stand first.
pub fn table_laws()
    ensures names { NamesDiffer }
    ensures keywords { KeywordsDiffer }
    ensures places { PlacesAreCounted }
    ensures needed { NeededStandFirst }
{}
