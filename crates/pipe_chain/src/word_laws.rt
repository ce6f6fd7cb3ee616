//! What lists with the same items as the winners, or as the numbers below a count, have once.

ghost use Rattle.std.specs.Prelude.{◌≡◌, ℕ, ◌<◌, ◌≤◌, List, Option, true, false};
ghost use Rattle.std.specs.List.{range_with_len};
ghost use Rattle.pipe_chain.specs.Sums.{times};
ghost use Rattle.pipe_chain.specs.Flags.{is_marked, winners, wins};

/// Each key whose flag stands was won once, and no other key.
#[tactic(auto, using(crate::proofs::OnceLemmas::one_win, crate::proofs::OnceLemmas::no_win))]
pub fn each_key_is_won_once()
    ensures once { (flags : List (Option ℕ)) (key : ℕ) → is_marked flags key ≡ true →
        wins key (winners flags) ≡ 1 }
    ensures no_other { (flags : List (Option ℕ)) (key : ℕ) → is_marked flags key ≡ false →
        wins key (winners flags) ≡ 0 }
{}

/// Each number below the count was drawn once, and no other number.
#[tactic(auto, using(crate::proofs::OnceLemmas::one_draw, crate::proofs::OnceLemmas::no_draw))]
pub fn each_number_is_drawn_once()
    ensures once { (count : ℕ) (n : ℕ) → n < count → times n (range_with_len 0 count) ≡ 1 }
    ensures no_other { (count : ℕ) (n : ℕ) → count ≤ n → times n (range_with_len 0 count) ≡ 0 }
{}
