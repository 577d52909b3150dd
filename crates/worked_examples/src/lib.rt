// The worked examples: specs/ has their bytes and answers as tables and what each row says; that every row holds is what the
// two functions here promise.
#![tactic(auto)]

ghost use Rattle.std.specs.Prelude.{ℕ, ◌≡◌, length};
ghost use Rattle.worked_examples.specs.Rows.{All};
ghost use Rattle.worked_examples.specs.Questions.{Says};
ghost use Rattle.worked_examples.specs.Table.{examples};
ghost use Rattle.worked_examples.specs.More.{more, MoreSaid};

// E1 to E10 and E8's sister: how many rows the table has, and every row says a fact of the published truth or of the equations, whatever
// E10's witness.
pub fn count() -> usize
    ensures { (lo hi : ℕ) → (result ≡ length (examples lo hi)) × All Says (examples lo hi) }
{
    19
}

// More examples: how many rows the table has, and all that is said of them.
pub fn count_more() -> usize
    ensures { (result ≡ length more) × MoreSaid }
{
    165
}
