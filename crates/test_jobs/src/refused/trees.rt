//! Trees that are to have one token more.
use advance_rule::EndPlan;
use std::test::Fail;
use tier_core::tree::Core;
use tier_shape::Shape;

// Asks a tree for its next token, and again if there was no memory and the tree is as before. Returns true if it gets it.
fn grows(core: &mut Core) -> bool {
    let (tokens, root) = (core.tokens(), core.root());
    let mut token = core.add_token();
    if token.is_err() && core.tokens() == tokens && core.root() == root {
        token = core.add_token();
    }
    token.ok() == Some(tokens)
}

#[test]
fn a_tree_grows_by_tokens(rt: HostRuntime) -> Result<(), Fail> {
    let plan = EndPlan {
        when_empty: true,
        at: None,
    };
    let shape = Shape::from_widths(rt.alloc(), "2x3")?;
    let mut core = Core::new(rt.alloc(), shape, 0, plan)?;
    for _ in 0..40 {
        assert!(rt; grows(&mut core));
    }
    assert_eq!(rt; core.tokens(), 40);
    Ok(())
}
