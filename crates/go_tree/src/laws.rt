// Laws of the grammar. Each is the contract of a function that does nothing.
ghost use Rattle.std.specs.Prelude.{◌≡◌, ℕ, true, List, [], ◌∷◌, ◌++◌};
ghost use Rattle.go_tree.specs.declared.token.Token.{Token};
ghost use Rattle.go_tree.specs.declared.production.Production.{Production};
ghost use Rattle.go_tree.specs.declared.production.Production.TheVariants.{File};
ghost use Rattle.go_tree.specs.Tree.{Tree};
ghost use Rattle.go_tree.specs.Grammar.RightSide.{RightSide};
ghost use Rattle.go_tree.specs.Grammar.Trees.Reading.{State, OpenNode};
ghost use Rattle.go_tree.specs.Grammar.Tables.Completion.{Firm, completion, tokens_of};
ghost use Rattle.go_tree.specs.Grammar.Tables.Rank.{top_rank};
ghost use Rattle.go_tree.specs.Grammar.Trees.Sentence.{texts, ReadsGo, is_whole, IsA, Derives, Begins};
ghost use Rattle.go_tree.specs.Grammar.Trees.Fronts.{Passes};
ghost use Rattle.go_tree.specs.Grammar.Trees.Spans.{HasSpans, HasRun};
ghost use Rattle.go_tree.specs.Grammar.Plain.Lines.{ReadPlainLines};

/// A token list has at most one tree.
pub fn one_tree()
    ensures { (bytes : List ℕ) (n : Production) (tokens : List Token) (t u : Tree) → Derives bytes n tokens t → Derives bytes n tokens u → t ≡ u }
{}

/// What is still open is completed by the tokens that `completion` gives, wherever the reading
/// stands and whatever nodes are open.
#[tactic(auto, using(crate::proofs::SentenceLemmas::completes_lem))]
pub fn open_is_completed()
    ensures { (bytes : List ℕ) (gs : List (RightSide Production)) → Firm texts top_rank gs → (last : ℕ) (open_nodes : List OpenNode) → (e : State) × ReadsGo bytes gs (record { last = last; rest = tokens_of (completion texts top_rank gs); open_nodes = open_nodes }) e × (e.rest ≡ []) }
{}

/// What is read to the end has a tree.
pub fn what_is_read_has_a_tree()
    ensures { (bytes : List ℕ) (n : Production) (tokens : List Token) → is_whole n ≡ true → IsA bytes n tokens → (t : Tree) × Derives bytes n tokens t }
{}

/// Tokens that a reading passes begin a text: the completion of what it leaves open completes them.
pub fn front_is_completed()
    ensures { (bytes : List ℕ) (n : Production) (front : List Token) (hs : List (RightSide Production)) → is_whole n ≡ true → Passes bytes n front hs → (t : Tree) × Derives bytes n (front ++ tokens_of (completion texts top_rank hs)) t }
{}

/// So do tokens that a reading passes with some more behind them. A front has no reading of its own where
/// it does not settle what it is asked: `package p; var x T .` does not say whether an identifier follows,
/// and begins a text since `package p; var x T . a` is passed.
pub fn front_begins()
    ensures { (bytes : List ℕ) (n : Production) (front more : List Token) (hs : List (RightSide Production)) → is_whole n ≡ true → Passes bytes n (front ++ more) hs → Begins bytes n front }
{}

/// Each node that is read has a run of the tokens: it starts where the first of them starts, and ends
/// where the last of them ends. The runs of its parts stand in it, one behind the other.
pub fn nodes_have_spans()
    ensures { (bytes : List ℕ) (n : Production) (tokens : List Token) (t : Tree) → Derives bytes n tokens t → HasSpans tokens t }
{}

/// The node of a file has all tokens.
pub fn file_has_all_tokens()
    ensures { (bytes : List ℕ) (tokens : List Token) (t : Tree) → Derives bytes File tokens t → HasRun tokens t }
{}

/// Lists, and each production that is factored so that one token decides, read what their plain lines read.
#[tactic(auto, using(crate::proofs::PlainLineLemmas::plain_lines_lem))]
pub fn factored_lines_are_plain()
    ensures { ReadPlainLines }
{}
