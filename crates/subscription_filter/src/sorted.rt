//! A filter whose lists of names are sorted, so that a name is found by halving.

ghost use Rattle.std.specs.List.{list_any};
ghost use Rattle.std.specs.List.Sorted.{IsPermutation};
ghost use Rattle.std.specs.Cmp.Lexicographic.{slice_cmp};
ghost use Rattle.std.specs.Ordering.{nat_cmp};
ghost use Rattle.std.specs.Prelude.{◌≡◌, IfOk};
ghost use Rattle.lcm_events.specs.Same.{same_name};
ghost use Rattle.lcm_model.specs.Notices.{admits, admits_given};

use lcm_events::Filter;
use std::alloc::{AllocError, Global};
use std::cmp::Ordering;
use std::marker::Model;
use vnfm_base::Name;

/// Names in the order of their bytes.
///
/// A contract sees them as a list.
#[derive(Drop)]
pub(crate) struct SortedNames {
    names: Vec<Name>,
}

impl Model for SortedNames {
    ghost use Rattle.std.specs.List.Sorted.{IsSorted};
    ghost use Rattle.std.specs.Cmp.Lexicographic.{slice_cmp};
    ghost use Rattle.std.specs.Ordering.{nat_cmp};
    ghost use Rattle.std.specs.Prelude.{List, ℕ};

    ghost Value = { List (List ℕ) };

    ghost view = { λ s. s.names.items };

    ghost invariant = { λ s. IsSorted (slice_cmp nat_cmp) s.names.items };
}

impl SortedNames {
    /// These names, sorted.
    pub(crate) fn of(alloc: Global, names: &[Name]) -> Result<SortedNames, AllocError>
        ensures { IfOk result (λ s. IsPermutation names.now s) }
    {
        let mut names = names.to_vec(alloc)?;
        names.sort_unstable();
        Ok(SortedNames { names })
    }

    /// Whether one of them has this text, by no more comparisons than its number of names has binary digits.
    fn has(&self, text: &[u8]) -> bool
        ensures { result ≡ list_any (same_name text.now) self.now }
    {
        self.names
            .binary_search_by(
                |name: &Name| -> Ordering
                    ensures { result ≡ slice_cmp nat_cmp name.now text.entry.now }
                { name.as_bytes().cmp(&text) },
            )
            .is_ok()
    }

    /// Whether a list of these names admits this one.
    #[tactic(auto, using(crate::proofs::AdmitLaws::admits_by))]
    pub(crate) fn admits(&self, text: &[u8]) -> bool
        ensures { result ≡ admits self.now (same_name text.now) }
    {
        let named = self.has(text);
        self.names.len() == 0 || named
    }
}

/// A filter with its lists of names sorted beside it.
///
/// A contract sees the filter.
#[derive(Drop)]
pub struct SortedFilter {
    filter: Filter,
    vnfds: SortedNames,
    instances: SortedNames,
    names: SortedNames,
}

impl Model for SortedFilter {
    ghost use Rattle.lcm_events.specs.declared.filters.Filter.{Filter};
    ghost use Rattle.subscription_filter.specs.Sorted.{AreBeside};

    ghost Value = { Filter };

    ghost view = { λ s. s.filter };

    ghost invariant = { AreBeside };
}

impl SortedFilter {
    /// The filter, ready to be asked. The time is that of sorting its names. `AllocError` is want of memory.
    ///
    /// Source: own rule.
    pub fn of(alloc: Global, filter: Filter) -> Result<SortedFilter, AllocError>
        ensures { IfOk result (λ s. s ≡ filter) }
    {
        let vnfds = SortedNames::of(alloc, filter.vnfds.as_slice())?;
        let instances = SortedNames::of(alloc, filter.instances.as_slice())?;
        let names = SortedNames::of(alloc, filter.names.as_slice())?;
        Ok(SortedFilter {
            filter,
            vnfds,
            instances,
            names,
        })
    }

    /// The filter.
    pub(crate) fn filter(&self) -> &Filter
        ensures { result.now ≡ self.now }
    {
        &self.filter
    }

    /// Whether its descriptors admit this one.
    #[tactic(auto, using(crate::proofs::AdmitLaws::admits_permuted))]
    pub(crate) fn admits_vnfd(&self, vnfd: &Name) -> bool
        ensures { result ≡ admits self.now.vnfds (same_name vnfd.now) }
    {
        self.vnfds.admits(vnfd.as_bytes())
    }

    /// Whether its instances admit the one whose identifier has this text.
    #[tactic(auto, using(crate::proofs::AdmitLaws::admits_permuted))]
    pub(crate) fn admits_instance(&self, text: &[u8]) -> bool
        ensures { result ≡ admits self.now.instances (same_name text.now) }
    {
        self.instances.admits(text)
    }

    /// Whether its names admit this one, which may be absent.
    #[tactic(auto, using(crate::proofs::AdmitLaws::admits_none, crate::proofs::AdmitLaws::admits_permuted))]
    pub(crate) fn admits_name(&self, name: &Option<Name>) -> bool
        ensures { result ≡ admits_given self.now.names same_name name.now }
    {
        match name {
            Some(name) => self.names.admits(name.as_bytes()),
            None => self.filter.names.len() == 0,
        }
    }
}
