//! Works on a tree, done or refused.

use branch_tree::{Act, Tree, TreeFault};
use std::test::Fail;

#[test]
fn works_on_a_tree(rt: HostRuntime) -> Result<(), Fail> {
    let alloc = rt.alloc();
    let mut tree = Tree::new(alloc, 2, 9)?;
    assert!(&rt; tree.work(2, Act::Stop, 0) == Err(TreeFault::Unmade));
    assert!(&rt; tree.work(1, Act::Split(4), 500) == Ok(()));
    assert!(&rt; tree.work(1, Act::Stop, 0) == Err(TreeFault::Worked));
    assert!(&rt; tree.count() == 3);
    assert!(&rt; tree.least() == Some(500));
    assert!(&rt; tree.work(2, Act::Full, 2000) == Ok(()));
    assert!(&rt; !tree.unworked(2));
    assert!(&rt; tree.unworked(3));
    assert!(&rt; tree.work(3, Act::Stop, 0) == Err(TreeFault::Budget));
    Ok(())
}
