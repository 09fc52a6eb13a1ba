//! What the table keeps of definitions is what attempts ask for.

ghost use Rattle.occ_table.specs.Needed.{WorkIsOnWhatIsNeeded};

/// When an attempt may begin, the definition of its change is needed, unless the change is to make it.
///
/// Source: own rule.
pub fn work_is_on_what_is_needed()
    ensures { WorkIsOnWhatIsNeeded }
{}
