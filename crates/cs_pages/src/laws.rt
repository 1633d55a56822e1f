// Laws of pages. Each is the contract of a function that does nothing.
ghost use Rattle.std.specs.Prelude.{◌≡◌, ℕ, ◌<◌, Bool, true, false, List, [], ◌∷◌, Option, Some, None, slice_index};
ghost use Rattle.std.specs.Option.{option_map};
ghost use denote.Param.Send.{IsSend};
ghost use Rattle.cs_snapctx.specs.Context.{Context};
ghost use Rattle.cs_states.specs.declared.page.PageState.TheVariants as page_states;
ghost use Rattle.cs_states.specs.declared.page.PageWrite.TheVariants as writes;
ghost use Rattle.cs_states.specs.declared.page.Pick.TheVariants as picks;
ghost use Rattle.cs_states.specs.PageLists.{owed_to, pick};
ghost use Rattle.cs_states.specs.PageState.{after_ack, after_drop, after_send, is_in, owed_seq, write_answer};
ghost use Rattle.cs_pages.specs.contracts.pages.Pages as pages_row;
ghost use Rattle.cs_pages.specs.declared.page.Page.{Page};
ghost use Rattle.cs_pages.specs.Example.{newer, two_pages};
ghost use Rattle.cs_pages.specs.Life.{IsLife, Step, after, last_put};
ghost use Rattle.cs_pages.specs.Page as page;
ghost use Rattle.cs_pages.specs.Pages.{page_at, state_at, states};

/// Over the life of a file's pages, a page that is cached has at each place the byte that was put there
/// last, by a write or from the store.
pub fn reads_give_the_last_bytes_put()
    ensures { (h : List Step) (q i : ℕ) (x : Page)
        → IsLife h → after h q ≡ Some x → i < 4096 → slice_index x.bytes i ≡ last_put h q i }
{}

/// What a page is to the client changes as the steps of its states say.
pub fn states_follow_the_steps()
    ensures filled { (bytes : List ℕ) → page.state_of (Some (page.filled bytes)) ≡ page_states.Clean }
    ensures written { (ctx : Context) (at : ℕ) (bytes : List ℕ) (x : Option Page)
        → page.state_of (Some (page.dirtied ctx at bytes x)) ≡ page_states.Dirty ctx.seq }
    ensures sent { (tid : ℕ) (x : Option Page)
        → page.state_of (option_map (page.sent_as tid) x) ≡ after_send tid (page.state_of x) }
    ensures acked { (keep : Bool) (tid : ℕ) (x : Option Page)
        → page.state_of (page.after_ack keep tid x) ≡ after_ack keep tid (page.state_of x) }
    ensures dropped { (x : Option Page) → page.state_of (page.after_drop x) ≡ after_drop (page.state_of x) }
{}

/// A page is owed under the context of its last write until its operation is acknowledged, and by the
/// number of that context.
pub fn contexts_are_of_the_last_write()
    ensures number { (x : Option Page)
        → option_map (λ c. c.seq) (page.context_of x) ≡ owed_seq (page.state_of x) }
    ensures written { (ctx : Context) (at : ℕ) (bytes : List ℕ) (x : Option Page)
        → page.context_of (Some (page.dirtied ctx at bytes x)) ≡ Some ctx }
    ensures sent { (tid : ℕ) (x : Option Page)
        → page.context_of (option_map (page.sent_as tid) x) ≡ page.context_of x }
    ensures acked { (keep : Bool) (tid : ℕ) (x : Option Page)
        → is_in tid (page.state_of x) ≡ true → page.context_of (page.after_ack keep tid x) ≡ None }
    ensures other { (keep : Bool) (tid : ℕ) (x : Option Page)
        → is_in tid (page.state_of x) ≡ false → page.after_ack keep tid x ≡ x }
    ensures dropped { (x : Option Page) → page.context_of (page.after_drop x) ≡ page.context_of x }
{}

/// An example, of two pages owed under context 4, one of them in flight. A write under context 5 waits
/// for both, and the other page is written back next.
pub fn two_contexts_by_example()
    ensures flight { state_at two_pages 0 ≡ page_states.Sent 4 9 }
    ensures older { write_answer newer.seq false 0 (state_at two_pages 1) ≡ writes.Older 4 }
    ensures next { pick (states two_pages) ≡ picks.Page 1 }
    ensures owed { owed_to 4 (states two_pages) ≡ 2 }
    ensures acked { page.after_ack true 9 (page_at two_pages 0) ≡ Some (page.filled (7 ∷ 7 ∷ [])) }
    ensures dropped { page.after_ack false 9 (page_at two_pages 0) ≡ None }
{}

/// The pages of a file may go to another thread.
pub fn pages_may_cross_threads()
    ensures { IsSend pages_row.the_row }
{}
