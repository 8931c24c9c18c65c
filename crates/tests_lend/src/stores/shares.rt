//! That threads can share what lends, for all values that they can share and send, and what a page makes.
use epoch_examples::lent::sorted_list::SortedList;
use epoch_lend::domain::Domain;
use epoch_lend::readers::posts::PostSet;
use epoch_lend_pointers::Store;

// Takes what threads can share, and nothing else.
fn shared<S: Sync>(_shared: &S) {}

/// Threads can share a domain.
pub fn domain_is_shared<J: PostSet>(domain: &Domain<J>) {
    shared(domain)
}

/// Threads can share a store.
pub fn store_is_shared<'s, J: PostSet, T: Drop + Send + Sync>(store: &Store<'s, J, T>) {
    shared(store)
}

/// Threads can share a sorted list.
pub fn list_is_shared<J: PostSet>(list: &SortedList<'_, '_, J>) {
    shared(list)
}
