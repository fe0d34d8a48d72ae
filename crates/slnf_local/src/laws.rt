//! The laws of the local form: they stand as the contract of a function that does nothing.
ghost use Rattle.std.specs.Prelude.{◌≡◌, ◌↔◌, ◌+◌, ◌≤◌, ◌++◌, ◌∷◌, [], ℕ, IsTrue, Option, None, Some, List, length, slice_get};
ghost use Rattle.slnf_access.specs.declared.requests.Entry.{Entry};
ghost use Rattle.slnf_run.specs.Setting.{Actor, Era, Setting};
ghost use Rattle.slnf_run.specs.Scene.{stand_of};
ghost use Rattle.slnf_run.specs.Parts.{Post, posts_of, offers_at, batch_of};
ghost use Rattle.slnf_run.specs.Run.{IsRun};
ghost use Rattle.slnf_local.specs.declared.broken.Broken.{Broken};
ghost use Rattle.slnf_local.specs.Local.{EachOver, IsExpected, IsLocalRun};
ghost use Rattle.slnf_local.specs.Tells.{Lapses, Tells};
ghost use Rattle.slnf_local.specs.Passes.{first_broken, lapse};
ghost use Rattle.slnf_local.specs.Hands.{Hand, HandExpects, batch_in_hand};
ghost use Rattle.slnf_local.specs.Followers.{Follower, IsFollowed, actors_at, all_over, first_epoch, next_epoch, with_hand, hand_next};

/// A list of entries is a run exactly where it is one entry by entry: in order, in its shards, with the map's replies,
/// each entry expected after those before it, and in the end each actor has ended. An expected entry's item is of the
/// batch in hand, the first of which an item hasn't ended.
pub fn runs_are_local<F, A>()
    ensures local { (s : Setting F A) (j : List Entry) → IsRun s j ↔ IsLocalRun s j }
    ensures in_hand { (s : Setting F A) (es : List Entry) (e : Entry) (post : Post) → IsExpected s es e
        → slice_get (posts_of s es) e.incarnation ≡ Some post
        → batch_in_hand (λ item. stand_of s.scene e.incarnation item es) (offers_at s e.incarnation post)
        ≡ Some (batch_of e.item (offers_at s e.incarnation post)) }
{}

/// Each list is a run, or there is one first rule that it breaks, with one least place; a definition computes it.
pub fn lists_have_one_answer<F, A>()
    ensures told { (s : Setting F A) (j : List Entry) → Tells s j (first_broken s j) }
    ensures once { (s : Setting F A) (j : List Entry) (answer : Option Broken)
        → Tells s j answer → answer ≡ first_broken s j }
    ensures run { (s : Setting F A) (j : List Entry) → (first_broken s j ≡ None) ↔ IsRun s j }
{}

/// What the state of one who follows a list tells. It is there before the first entry. An entry of an actor in hand is
/// expected exactly where its hand expects it, and then changes that hand alone. Where all actors in hand have ended the
/// next epoch is in hand. No entry of an earlier epoch is expected, one of a later epoch only where all actors in hand
/// have ended, and none behind the last epoch, where each actor has ended. So one pass over the list answers whether each
/// entry is expected and each actor ends, and else which doesn't first.
pub fn followers_tell<F, A>()
    ensures begin { (s : Setting F A) → IsFollowed s [] (first_epoch s) }
    ensures expects { (s : Setting F A) (es : List Entry) (f : Follower F) (e : Entry) (k : ℕ) (actor : Actor)
        (hand : Hand F) → IsFollowed s es f → slice_get (actors_at s.eras f.number) k ≡ Some actor
        → slice_get f.hands k ≡ Some hand → e.incarnation ≡ f.base + k
        → IsExpected s es e ↔ HandExpects (s.scene.machine e.incarnation) actor hand e }
    ensures step { (s : Setting F A) (es : List Entry) (f : Follower F) (e : Entry) (k : ℕ) (actor : Actor)
        (hand : Hand F) → IsFollowed s es f → slice_get (actors_at s.eras f.number) k ≡ Some actor
        → slice_get f.hands k ≡ Some hand → e.incarnation ≡ f.base + k → IsExpected s es e
        → IsFollowed s (es ++ e ∷ []) (with_hand f k (hand_next s f actor hand e)) }
    ensures next { (s : Setting F A) (es : List Entry) (f : Follower F) (era : Era) → IsFollowed s es f
        → slice_get s.eras f.number ≡ Some era → IsTrue (all_over era.actors f.hands)
        → IsFollowed s es (next_epoch s f) }
    ensures earlier { (s : Setting F A) (es : List Entry) (f : Follower F) (e : Entry) → IsFollowed s es f
        → IsExpected s es e → f.base ≤ e.incarnation }
    ensures later { (s : Setting F A) (es : List Entry) (f : Follower F) (e : Entry) (era : Era) → IsFollowed s es f
        → slice_get s.eras f.number ≡ Some era → f.base + length era.actors ≤ e.incarnation → IsExpected s es e
        → IsTrue (all_over era.actors f.hands) }
    ensures end { (s : Setting F A) (es : List Entry) (f : Follower F) → IsFollowed s es f → length s.eras ≤ f.number
        → EachOver s es }
    ensures pass { (s : Setting F A) (j : List Entry) → Lapses s j (lapse s j) }
{}
