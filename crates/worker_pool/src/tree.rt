//! The tree at which workers synchronize: how the members of a stretch join, arrive and leave, and how they are cut anew.
ghost use Rattle.std.specs.Prelude.{◌≡◌, ◌<◌, ◌++◌, ◌∷◌, [], length, IfSome, OnOk, OnErr};

use crate::leaves::Leaves;
use std::alloc::{AllocError, Global};
use std::sync::Wait;
use std::thread;
use stretch_queue::fault::WorkerFault;
use stretch_queue::led::Led;
use stretch_queue::members::Recut;
use stretch_queue::moves::{LeafMoves, Moves};
use stretch_queue::running::Running;
use stretch_queue::tokens::{Bundle, OwnToken, Tokens};
use tier_calls::registering_all::Halt;
use tier_table::TRIES;
use tier_table::forcing::Forced;
use tier_table::group_members::{GroupLeft, RegisteredAll};
use tier_table::groups::{Group, GroupArrived};
use tier_table::joining::Opened;
use tier_table::polling::Polled;
use tier_table::tokens::Opening;
use tier_table::tree::Tree;

/// The tree of phasers of the run, and its leaves. Its type keeps that it is the run's tree.
#[derive(Drop)]
pub(crate) struct WorkerTree<J: Running, F: Fn(u32, u32) -> bool> {
    phaser: Tree<F>,
    leaves: Leaves<J>,
    ghost own: { phaser.tree ≡ J.tree },
}

// How a registration of new members ended.
#[derive(Drop)]
enum Entry<J: Running> {
    // They have joined, but for so many.
    In(Bundle<J>, u32),
    // Nobody has joined: the tier is held, busy or full. Another may do.
    Off,
    // The tree has ended.
    Over,
}

// Members of one tier, and what they do in a superstep besides arriving.
#[derive(Drop)]
struct Planned<J: Running> {
    bundle: Bundle<J>,
    moves: LeafMoves,
}

impl<J: Running> Planned<J> {
    // They arrive.
    fn new(bundle: Bundle<J>) -> Self {
        Planned {
            bundle,
            moves: LeafMoves {
                joining: 0,
                leaving: 0,
            },
        }
    }

    // Lets more of them leave, as many as there are and at most `leaving`. Returns how many of those are left over.
    fn let_leave(&mut self, leaving: u32) -> u32 {
        let staying = self.bundle.group.size().saturating_sub(self.moves.leaving);
        let more = leaving.min(staying);
        self.moves.leaving = self.moves.leaving.saturating_add(more);
        leaving - more
    }

    // Lets more members join them.
    fn let_join(&mut self, joining: u32) {
        self.moves.joining = self.moves.joining.saturating_add(joining);
    }
}

// Appends an item.
fn append<T: Drop>(list: &mut Vec<T>, item: T) -> Result<(), AllocError>
    ensures items { OnOk result (list.new.items ≡ list.old.items ++ item ∷ []) }
    ensures kept { OnErr result (list.new.items ≡ list.old.items) }
{
    list.push(item)?;
    Ok(())
}

// Returns the place of the members of this tier.
fn place_of<J: Running>(planned: &[Planned<J>], tier: u16) -> Option<usize>
    ensures { IfSome result (λ place. place < length planned.now) }
{
    for place in 0..planned.len() {
        if planned[place].bundle.group.tier() == tier {
            return Some(place);
        }
    }
    None
}

impl<J: Running, F: Fn(u32, u32) -> bool> WorkerTree<J, F> {
    ghost use Rattle.std.specs.Prelude.{◌≡◌, ◌<◌, ◌≤◌, true, is_some, length, IfOk, IfSome};
    ghost use Rattle.advance_rule.specs.Stored.{Answers};
    ghost use Rattle.advance_rule.specs.Plan.{end_ends_at};
    ghost use Rattle.tier_shape.specs.Leaves.{leaves_of};

    /// Keeps the tree of the run with its leaves.
    pub(crate) fn new(phaser: Tree<F>, leaves: Leaves<J>) -> Self
        requires { phaser.tree ≡ J.tree }
        ensures { result.phaser ≡ phaser }
    {
        WorkerTree { phaser, leaves }
    }

    /// Returns the number of leaves.
    pub(crate) fn leaf_count(&self) -> u16
        ensures some { 1 ≤ result }
    {
        self.leaves.count()
    }

    /// Splits off the token of a worker.
    pub(crate) fn own_token(&self, own: &mut OwnToken<J>) -> OwnToken<J> {
        OwnToken::new(self.phaser.split(&mut own.door))
    }

    // Resumes the opening of a path, for one of `count` new members, until it is done.
    fn open<R: Wait>(&self, rt: &R, mut opening: Opening, count: u32) -> Entry<J>
        requires { opening.token.tree ≡ J.tree }
    {
        for _ in rt.forever() {
            match self.phaser.resume_opening(opening, TRIES) {
                Opened::Joined(crew, _phase) => {
                    if crew.size() != 1 {
                        return Entry::Over;
                    }
                    return Entry::In(Bundle::new(Group::of(crew)), count.saturating_sub(1));
                }
                Opened::Held(_door, _phase, _cause) => return Entry::Off,
                Opened::Full(_door, _count) => return Entry::Off,
                Opened::Ended(_door, _shown) => return Entry::Over,
                Opened::Owing(rest) => {
                    opening = rest;
                    thread::yield_now();
                }
            }
        }
        unreachable!()
    }

    // Registers `count` new members at a tier, with a limited number of tries. Opens the path to the tier if it is empty.
    fn register<R: Wait>(&self, rt: &R, own: &mut OwnToken<J>, tier: u16, count: u32) -> Entry<J>
        requires tier { tier < length J.tree.key.shape }
        requires some { 0 < count }
    {
        let door = self.phaser.split(&mut own.door);
        match self.phaser.register_all(door, tier, count, TRIES) {
            RegisteredAll::Joined(group, _phase) => Entry::In(Bundle::new(group), 0),
            RegisteredAll::Partly(group, Halt::Full(_) | Halt::Ended(_) | Halt::Busy) => {
                Entry::In(Bundle::new(group), count - 1)
            }
            RegisteredAll::Held(_door, _phase, _cause) => Entry::Off,
            RegisteredAll::Full(_door, _count) => Entry::Off,
            RegisteredAll::Busy(_door) => Entry::Off,
            RegisteredAll::Ended(_door, _shown) => Entry::Over,
            RegisteredAll::Owing(opening) => self.open(rt, opening, count),
        }
    }

    // Lets all members of a group leave. Returns the sign if that advanced the tree.
    fn leave<R: Wait>(&self, rt: &R, bundle: Bundle<J>) -> Result<Option<Led<J>>, WorkerFault>
        requires rule { Answers (F.pre self.now.phaser.rule.closure) (F.post self.now.phaser.rule.closure) (end_ends_at self.now.phaser.rule.plan) }
    {
        let Bundle { group, .. } = bundle;
        let answer = self.phaser.leave_all_wait(rt, group);
        let led = Led::of_departure(&answer);
        match answer {
            GroupLeft::Left(_door, _phase, _led) => Ok(led),
            GroupLeft::AlreadyArrived(_group, _phase) => Err(WorkerFault::Internal),
            GroupLeft::Ended(_group, _shown) => Err(WorkerFault::Internal),
        }
    }

    // Lets new members join a group and arrive, some of its members leave, and the others arrive, by one exchange. Returns the members
    // that are left, and the sign if that advanced the tree.
    fn arrive_group<R: Wait>(
        &self,
        rt: &R,
        own: &mut OwnToken<J>,
        bundle: Bundle<J>,
        moves: LeafMoves,
    ) -> Result<(Option<Bundle<J>>, Option<Led<J>>), WorkerFault>
        requires rule { Answers (F.pre self.now.phaser.rule.closure) (F.post self.now.phaser.rule.closure) (end_ends_at self.now.phaser.rule.plan) }
    {
        let LeafMoves { joining, leaving } = moves;
        let size = bundle.group.size();
        if leaving > size {
            return Err(WorkerFault::Internal);
        }
        if joining == 0 && leaving == size {
            let led = self.leave(rt, bundle)?;
            return Ok((None, led));
        }
        let Bundle { group, .. } = bundle;
        let answer = if joining == 0 && leaving == 0 {
            self.phaser.arrive_all_wait(rt, group)
        } else {
            self.phaser
                .arrive_with_wait(rt, &mut own.door, group, joining, leaving)
        };
        let led = Led::of_arrival(&answer);
        match answer {
            GroupArrived::Done(group, _phase, _led) => Ok((Some(Bundle::new(group)), led)),
            GroupArrived::Full(_group, _count) => Err(WorkerFault::Full),
            GroupArrived::AlreadyArrived(_group, _phase) => Err(WorkerFault::Internal),
            GroupArrived::Ended(_group, _shown) => Err(WorkerFault::Internal),
        }
    }

    // Lets the members of a stretch arrive. Those that join do so at the first group, and those that leave are taken of the groups
    // one after another.
    fn arrive_together<R: Wait>(
        &self,
        rt: &R,
        own: &mut OwnToken<J>,
        tokens: &mut Tokens<J>,
        moves: LeafMoves,
    ) -> Result<Option<Led<J>>, WorkerFault>
        requires rule { Answers (F.pre self.now.phaser.rule.closure) (F.post self.now.phaser.rule.closure) (end_ends_at self.now.phaser.rule.plan) }
    {
        let mut led = None;
        let mut rest = moves;
        for _ in 0..tokens.len() {
            let Some(bundle) = tokens.pop_first() else {
                return Err(WorkerFault::Internal);
            };
            let leaving = rest.leaving.min(bundle.group.size());
            let joining = rest.joining;
            rest.leaving -= leaving;
            rest.joining = 0;
            let (stays, one_led) = self.arrive_group(
                rt,
                own,
                bundle,
                LeafMoves { joining, leaving },
            )?;
            if let Some(bundle) = stays {
                tokens.push(bundle)?;
            }
            led = one_led.or(led);
        }
        if rest.leaving > 0 || rest.joining > 0 {
            return Err(WorkerFault::Internal);
        }
        Ok(led)
    }

    // Lets those that were spawned join the members of their leaf, if there are some, and registers the others there. Returns how many
    // found no room or no time.
    fn join_leaf<R: Wait>(
        &self,
        rt: &R,
        own: &mut OwnToken<J>,
        planned: &mut Vec<Planned<J>>,
        number: usize,
        joining: u32,
    ) -> Result<u32, WorkerFault> {
        if joining == 0 {
            return Ok(0);
        }
        let tier = self.leaves.tier(number);
        if let Some(place) = place_of(planned, tier) {
            planned[place].let_join(joining);
            return Ok(0);
        }
        match self.register(rt, own, tier, joining) {
            Entry::In(bundle, rest) => {
                append(planned, Planned::new(bundle))?;
                Ok(rest)
            }
            Entry::Off => Ok(joining),
            Entry::Over => Err(WorkerFault::Internal),
        }
    }

    // Lets those that stop leave the members of their leaf. Returns how many find no member there.
    fn leave_leaf(&self, planned: &mut Vec<Planned<J>>, number: usize, leaving: u32) -> u32 {
        if leaving == 0 {
            return 0;
        }
        match place_of(planned, self.leaves.tier(number)) {
            Some(place) => planned[place].let_leave(leaving),
            None => leaving,
        }
    }

    // Plans for each group how many members join and leave it. Those of the stretch are the first groups. A spawned task that finds no
    // room or no time at its leaf joins the first group.
    fn plan<R: Wait>(
        &self,
        rt: &R,
        own: &mut OwnToken<J>,
        planned: &mut Vec<Planned<J>>,
        moves: &[LeafMoves],
    ) -> Result<(), WorkerFault> {
        let mut leaving = 0;
        let mut joining: u32 = 0;
        for number in 0..moves.len() {
            let LeafMoves {
                joining: come,
                leaving: go,
            } = moves[number];
            let left_over = self.leave_leaf(planned, number, go);
            leaving = left_over.saturating_add(leaving);
            let homeless = self.join_leaf(rt, own, planned, number, come)?;
            joining = joining.saturating_add(homeless);
        }
        for place in 0..planned.len() {
            leaving = planned[place].let_leave(leaving);
        }
        match planned.first_mut() {
            Some(first) => first.let_join(joining),
            None => return Err(WorkerFault::Internal),
        }
        if leaving > 0 {
            return Err(WorkerFault::Internal);
        }
        Ok(())
    }

    // Lets the members of a stretch arrive. Spawned tasks join at their leaves, and those that stop leave there.
    fn arrive_by_leaf<R: Wait>(
        &self,
        rt: &R,
        alloc: Global,
        own: &mut OwnToken<J>,
        tokens: &mut Tokens<J>,
        moves: &[LeafMoves],
    ) -> Result<Option<Led<J>>, WorkerFault>
        requires rule { Answers (F.pre self.now.phaser.rule.closure) (F.post self.now.phaser.rule.closure) (end_ends_at self.now.phaser.rule.plan) }
    {
        let mut planned = Vec::with_capacity(alloc, tokens.len())?;
        for _ in 0..tokens.len() {
            match tokens.pop_first() {
                Some(bundle) => append(&mut planned, Planned::new(bundle))?,
                None => return Err(WorkerFault::Internal),
            }
        }
        self.plan(rt, own, &mut planned, moves)?;
        let mut led = None;
        while let Some(one) = planned.pop() {
            let Planned { bundle, moves } = one;
            let (stays, one_led) = self.arrive_group(rt, own, bundle, moves)?;
            if let Some(bundle) = stays {
                tokens.push(bundle)?;
            }
            led = one_led.or(led);
        }
        Ok(led)
    }

    /// Synchronizes the members of a stretch that was delivered: new ones join and arrive for the tasks that were spawned, those of
    /// tasks that stopped leave, and the others arrive; by one exchange at each tier. Returns the sign if one of them advanced the
    /// tree.
    pub(crate) fn arrive<R: Wait>(
        &self,
        rt: &R,
        alloc: Global,
        own: &mut OwnToken<J>,
        tokens: &mut Tokens<J>,
        moves: &Moves,
    ) -> Result<Option<Led<J>>, WorkerFault>
        requires rule { Answers (F.pre self.now.phaser.rule.closure) (F.post self.now.phaser.rule.closure) (end_ends_at self.now.phaser.rule.plan) }
    {
        if moves.at_leaves.is_empty() {
            return self.arrive_together(rt, own, tokens, moves.all);
        }
        self.arrive_by_leaf(rt, alloc, own, tokens, &moves.at_leaves)
    }

    // Looks at the root for members. Returns their phase if none has arrived in it.
    fn look(&self, bundle: &mut Bundle<J>) -> Option<u32>
        ensures unarrived { IfSome result (λ phase. (bundle.new.group.view.arrived ≡ 0) × (bundle.new.group.view.phase ≡ phase)) }
        ensures tier { bundle.new.group.view.tier ≡ bundle.old.group.view.tier }
    {
        match self.phaser.poll_all(&mut bundle.group) {
            Polled::Passed(phase) | Polled::Here(phase) => Some(phase),
            Polled::Waiting | Polled::Ended(_) => None,
        }
    }

    // Puts two groups of one tier together. Fails if they aren't unarrived in one phase.
    fn join_two(&self, one: &mut Bundle<J>, other: Bundle<J>) -> Result<(), WorkerFault>
        requires tier { other.group.view.tier ≡ one.old.group.view.tier }
    {
        let mut other = other;
        match (self.look(one), self.look(&mut other)) {
            (Some(phase), Some(same)) if phase == same => {
                let Bundle { group, .. } = other;
                self.phaser.join_groups(&mut one.group, group);
                Ok(())
            }
            (_, _) => Err(WorkerFault::Internal),
        }
    }

    // Puts members to the first of these that are at their tier, or appends them.
    fn merge(&self, bundles: &mut Vec<Bundle<J>>, bundle: Bundle<J>) -> Result<(), WorkerFault> {
        for place in 0..bundles.len() {
            if bundles[place].group.tier() == bundle.group.tier() {
                return self.join_two(&mut bundles[place], bundle);
            }
        }
        append(bundles, bundle)?;
        Ok(())
    }

    // Puts all these members to those that are at their tiers.
    fn merge_all(
        &self,
        bundles: &mut Vec<Bundle<J>>,
        tokens: &mut Tokens<J>,
    ) -> Result<(), WorkerFault> {
        for _ in 0..tokens.len() {
            match tokens.pop_first() {
                Some(bundle) => self.merge(bundles, bundle)?,
                None => return Err(WorkerFault::Internal),
            }
        }
        Ok(())
    }

    // Splits off all but the first `count` members.
    fn split(&self, bundle: &mut Bundle<J>, count: u32) -> Bundle<J>
        requires { (0 < count) × (count < length bundle.old.group.tokens) }
    {
        Bundle::new(self.phaser.split_group(&mut bundle.group, count))
    }

    // Takes `count` members of the last groups.
    fn take_members(
        &self,
        alloc: Global,
        bundles: &mut Vec<Bundle<J>>,
        count: usize,
    ) -> Result<Tokens<J>, WorkerFault> {
        let mut tokens = Tokens::new(alloc);
        let mut need = count;
        while need > 0 {
            let Some(mut bundle) = bundles.pop() else {
                return Err(WorkerFault::Internal);
            };
            let has = bundle.group.size() as usize;
            if need < has {
                let rest = self.split(&mut bundle, need as u32);
                append(bundles, rest)?;
                tokens.push(bundle)?;
                return Ok(tokens);
            }
            need -= has;
            tokens.push(bundle)?;
        }
        Ok(tokens)
    }

    /// Cuts members into those of stretches of these sizes.
    pub(crate) fn cut(
        &self,
        alloc: Global,
        mut bundles: Vec<Bundle<J>>,
        sizes: &[usize],
    ) -> Result<Vec<Option<Tokens<J>>>, WorkerFault> {
        let mut all = Vec::with_capacity(alloc, sizes.len())?;
        for place in 0..sizes.len() {
            let tokens = self.take_members(alloc, &mut bundles, sizes[place])?;
            append(&mut all, Some(tokens))?;
        }
        Ok(all)
    }

    /// Cuts the members of stretches between which tasks have moved, for what tasks these have now.
    pub(crate) fn cut_anew(
        &self,
        alloc: Global,
        recut: Recut<J>,
    ) -> Result<Vec<Option<Tokens<J>>>, WorkerFault> {
        let Recut { mut tokens, sizes } = recut;
        let mut bundles = Vec::new(alloc);
        while let Some(mut one) = tokens.pop() {
            self.merge_all(&mut bundles, &mut one)?;
        }
        self.cut(alloc, bundles, &sizes)
    }

    /// Ends the tree. Changes nothing if it has ended.
    pub(crate) fn force<R: Wait>(&self, rt: &R, own: &mut OwnToken<J>)
        ensures ended { is_some own.new.door.view.end_seen ≡ true }
    {
        for _ in rt.forever() {
            match self.phaser.force(&mut own.door, TRIES) {
                Forced::Ended(_) => return,
                Forced::Busy => thread::yield_now(),
            }
        }
        unreachable!()
    }
}
