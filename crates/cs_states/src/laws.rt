// Laws of pages and of operations in flight. Each is the contract of a function that does nothing.
ghost use Rattle.std.specs.Prelude.{◌≡◌, ℕ, ◌+◌, ◌<◌, ◌≤◌, ◌↔◌, Bool, true, false, nat_lt, List, None, Some};
ghost use Rattle.std.specs.List.{AllByRecursion};
ghost use Rattle.cs_states.specs.declared.page.PageState.{PageState};
ghost use Rattle.cs_states.specs.declared.page.PageState.TheVariants as states;
ghost use Rattle.cs_states.specs.declared.page.PageWrite.TheVariants as writes;
ghost use Rattle.cs_states.specs.declared.page.Pick.TheVariants as picks;
ghost use Rattle.cs_states.specs.Deliveries.{IsLife, Step, after, arrivals, lost_copies, lost_replies, replies, sends};
ghost use Rattle.cs_states.specs.Example.{oldest_sent, three_pages};
ghost use Rattle.cs_states.specs.PageLists.{Ascend, IsLowestOfOldest, IsOldest, OldestIsSent, Pages, clean_count, listed, oldest, owed_to, owed_under, pick};
ghost use Rattle.cs_states.specs.PageState.{after_ack, is_in, owed_seq, write_answer};

/// Where the numbers of the pages ascend, `pick` names the lowest page that isn't sent, of those owed
/// under the oldest context. It names none yet exactly where all of these are sent, one or more, and
/// none exactly where no page is owed.
pub fn pick_names_the_lowest_page_of_the_oldest_context()
    ensures page { (low high p : ℕ) (es : Pages)
        → Ascend low high es → pick es ≡ picks.Page p → IsLowestOfOldest p es }
    ensures waiting { (n : ℕ) (es : Pages) → pick es ≡ picks.Waiting n → OldestIsSent n es }
    ensures clean { (es : Pages) → (pick es ≡ picks.Clean) ↔ AllByRecursion (λ e. owed_seq e.1 ≡ None) es }
{}

/// The oldest context is that of some page, and no page is owed under an older one. There is none
/// exactly where no page is owed.
pub fn the_oldest_context_is_the_least()
    ensures some { (q : ℕ) (es : Pages) → oldest es ≡ Some q → 0 < owed_under q es }
    ensures least { (q : ℕ) (es : Pages) → oldest es ≡ Some q → IsOldest q es }
    ensures none { (es : Pages) → (oldest es ≡ None) ↔ AllByRecursion (λ e. owed_seq e.1 ≡ None) es }
{}

/// The list of cached pages is fixed by the states of their numbers, and these ascend in it.
pub fn listed_pages_are_those_of_their_numbers()
    ensures same { (n p : ℕ) (f g : ℕ → PageState)
        → ((q : ℕ) → p ≤ q → f q ≡ g q) → listed n p f ≡ listed n p g }
    ensures order { (n p : ℕ) (f : ℕ → PageState) → Ascend p (p + n) (listed n p f) }
{}

/// What a buffered write into a page waits for, in the order of the causes. With none it is done.
pub fn writes_wait_for_their_causes()
    ensures older { (q r free : ℕ) (whole : Bool) (s : PageState)
        → owed_seq s ≡ Some r → r < q → write_answer q whole free s ≡ writes.Older r }
    ensures flight { (q r t free : ℕ) (whole : Bool)
        → q ≤ r → write_answer q whole free (states.Sent r t) ≡ writes.InFlight t }
    ensures room { (q : ℕ) (whole : Bool) → write_answer q whole 0 states.Absent ≡ writes.Room }
    ensures fill { (q free : ℕ) → 0 < free → write_answer q false free states.Absent ≡ writes.NeedFill }
    ensures whole { (q free : ℕ) → 0 < free → write_answer q true free states.Absent ≡ writes.Written }
    ensures clean { (q free : ℕ) (whole : Bool) → write_answer q whole free states.Clean ≡ writes.Written }
    ensures dirty { (q r free : ℕ) (whole : Bool)
        → q ≤ r → write_answer q whole free (states.Dirty r) ≡ writes.Written }
{}

/// An acknowledgement changes the page that its operation carries, and no other.
pub fn an_acknowledgement_leaves_other_operations()
    ensures same { (keep : Bool) (t : ℕ) (s : PageState) → is_in t s ≡ false → after_ack keep t s ≡ s }
    ensures owed { (keep : Bool) (t : ℕ) (s : PageState)
        → is_in t s ≡ true → owed_seq (after_ack keep t s) ≡ None }
{}

/// Over the life of an operation: it was sent as often as copies came to the store, were lost or are
/// on the way; as many copies came as replies came to the client, were lost or are on the way; and it
/// is acknowledged exactly where a reply came.
pub fn copies_and_replies_are_counted()
    ensures copies { (h : List Step) → IsLife h → (after h).copies + arrivals h + lost_copies h ≡ sends h }
    ensures replies { (h : List Step)
        → IsLife h → (after h).replies + replies h + lost_replies h ≡ arrivals h }
    ensures acked { (h : List Step) → IsLife h → (after h).acked ≡ nat_lt 0 (replies h) }
{}

/// An example, of three cached pages, two of them owed. That of the older context comes first, though
/// its number is greater; the other waits until it is acknowledged.
pub fn one_page_by_example()
    ensures oldest { pick three_pages ≡ picks.Page 7 }
    ensures waiting { pick oldest_sent ≡ picks.Waiting 1 }
    ensures owed { owed_to 4 three_pages ≡ 1 }
    ensures clean { clean_count three_pages ≡ 1 }
    ensures acked { after_ack true 9 (states.Sent 4 9) ≡ states.Clean }
    ensures dropped { after_ack false 9 (states.Sent 4 9) ≡ states.Absent }
    ensures other { after_ack true 8 (states.Sent 4 9) ≡ states.Sent 4 9 }
    ensures written { write_answer 5 false 0 (states.Dirty 4) ≡ writes.Older 4 }
{}
