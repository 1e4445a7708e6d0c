//! Trees of atomic words that are closed.

ghost use Rattle.std.specs.Prelude.{◌≡◌, All, IfOk};
ghost use Rattle.tier_table.specs.Closes.{held};

use advance_rule::{EndPlan, StoredAdvance};
use std::alloc::{AllocError, Global};
use std::process::Abort;
use std::test::Fail;
use tier_shape::Shape;
use tier_table::closing::{CloseTreeFault, Closed, ClosedToken};
use tier_table::joining::Registered;
use tier_table::tokens::{Crew, Door, Token};
use tier_table::tree::Tree;

// The words of a tree `2x3` in phase 5, with two members registered at its first leaf: the phase, the parties, how many
// of them are unarrived.
const WORDS: [(u32, u32, u32); 9] = [
    (5, 1, 1),
    (5, 1, 1),
    (5, 0, 1),
    (5, 2, 2),
    (5, 0, 1),
    (5, 0, 1),
    (5, 0, 1),
    (5, 0, 1),
    (5, 0, 1),
];

// A token as its tier, members, unarrived members and phase.
fn numbers_of(token: &ClosedToken) -> (u32, u32, u32, u32) {
    (
        u32::from(token.tier),
        token.size,
        token.unarrived,
        token.phase,
    )
}

// Returns true if a closed tree leaves those words, and the two tokens in their order.
fn is_left(closed: &Closed) -> bool {
    if closed.words.len() != 9 || closed.tokens.len() != 2 {
        return false;
    }
    for (word, want) in closed.words.iter().zip(&WORDS) {
        if word.ended || (word.phase, word.parties, word.unarrived) != *want {
            return false;
        }
    }
    numbers_of(&closed.tokens[0]) == (3, 2, 2, 5) && numbers_of(&closed.tokens[1]) == (0, 0, 0, 5)
}

// Returns true if the two tokens that come back are those that were handed in.
fn are_both(tokens: &[Token]) -> bool {
    match tokens {
        [Token::Crew(crew), Token::Door(door)] => {
            crew.tier() == 3 && crew.size() == 2 && crew.unarrived() == 2 && door.phase() == 5
        }
        _ => false,
    }
}

// Closes a tree of two tokens, and again if there was no memory and the tokens are returned.
fn closes<F: Fn(u32, u32) -> bool + Drop>(
    alloc: Global,
    tree: Tree<F>,
    tokens: Vec<Token>,
) -> Result<Closed, CloseTreeFault<F>>
    requires own { All (λ t. (held t).tree ≡ tree.tree) tokens.items }
{
    match tree.close(alloc, tokens) {
        Ok(closed) => Ok(closed),
        Err(unclosed) if are_both(&unclosed.tokens) => {
            unclosed.tree.close(alloc, unclosed.tokens)
        }
        Err(unclosed) => Err(unclosed),
    }
}

// Returns the two tokens, in a list.
fn both(alloc: Global, crew: Crew, door: Door) -> Result<Vec<Token>, AllocError>
    requires { crew.tree ≡ door.tree }
    ensures { IfOk result (λ tokens. All (λ t. (held t).tree ≡ door.tree) tokens.items) }
{
    let mut tokens = Vec::new(alloc);
    tokens.push(Token::Crew(crew))?;
    tokens.push(Token::Door(door))?;
    Ok(tokens)
}

// Registers two members at the first leaf.
fn registered<F: Fn(u32, u32) -> bool>(rt: &impl Abort, tree: &Tree<F>, door: Door) -> Crew
    requires { door.tree ≡ tree.now.tree }
    ensures { result.tree ≡ tree.now.tree }
{
    assert!(rt; tree.shape().count() == 9);
    match tree.register(door, 3, 2, 16) {
        Registered::Joined(crew, _phase) => crew,
        _ => panic!(rt; "not registered"),
    }
}

#[test]
fn a_tree_is_closed(rt: HostRuntime) -> Result<(), Fail> {
    let plan = EndPlan {
        when_empty: true,
        at: None,
    };
    let rule = StoredAdvance::new(|_phase: u32, count: u32| count == 0, plan);
    let shape = Shape::from_widths(rt.alloc(), "2x3")?;
    let (tree, mut zero) = Tree::new(rt.alloc(), shape, 5, rule)?;
    let one = tree.split(&mut zero);
    let crew = registered(&rt, &tree, zero);
    let tokens = both(rt.alloc(), crew, one)?;
    let Ok(closed) = closes(rt.alloc(), tree, tokens) else {
        panic!(rt; "not closed");
    };
    assert!(rt; is_left(&closed));
    Ok(())
}
