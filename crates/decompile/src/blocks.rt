//! The nodes of an instruction.

ghost use Rattle.std.specs.Prelude.{◌≡◌, ◌+◌, ◌*◌, ◌<◌, ◌∷◌, [], ℕ, map, true, IfOk, OnOk};
ghost use Rattle.code_reach_spec.specs.Code.{Falls, Branches, Jumps, Calls, Links, Returns, Stops};
ghost use Rattle.code_reach_spec.specs.Code.{Switches};
ghost use Rattle.code_reach_tables.specs.Tables.{jump_seen, target_at};
ghost use Rattle.graph_core_spec.specs.declared.Next.TheVariants as next;
ghost use Rattle.graph_core_spec.specs.Graph.{Basic, Cond, with_nodes};
ghost use Rattle.graph_core.specs.Graphs.{boxed_term, graph_of, node_of};
ghost use Rattle.decompile_spec.specs.Blocks.{leaves, toward};
ghost use Rattle.decompile_spec.specs.InstructionTerms.{branch_test as branch_test_is};
ghost use Rattle.decompile_spec.specs.InstructionTerms.{returns_home as returns_home_is};
ghost use Rattle.decompile.specs.Built.{AddsBlock, AddsFlow};
ghost use Rattle.decompile.specs.Tables as tables;
ghost use Rattle.decompile.specs.Items.{item_of};
ghost use Rattle.decompile.specs.Settings.{setting_of, asks};

use crate::bindings::{call_inputs, effects, keeping, tail_inputs};
use crate::function::{Function, graph_number};
use crate::items::Item;
use crate::numbers::plus;
use attempt::attempt;
use code_reach::{Flow, TableJump, target};
use decompile_accesses::access_tests;
use decompile_terms::{branch_test, is_index, returns_home};
use elf_read::Image;
use graph_core::{Graph, Node};
use graph_core_spec::Next;
use rv_instr::Instr;
use std::alloc::{AllocError, Global};
use term_core::Term;
use term_core_spec::Atom;

/// Adds a node that binds nothing.
fn add_plain(alloc: Global, graph: &mut Graph, next: Next) -> Result<(), AllocError>
    ensures { OnOk result (graph_of graph.new
        ≡ with_nodes (graph_of graph.old) (Basic [] next ∷ [])) }
{
    let bindings = Vec::new(alloc);
    attempt!(graph.add(Node::Basic { bindings, next }));
    Ok(())
}

/// Adds a test that the return address is as it was when the function began.
fn add_home(alloc: Global, graph: &mut Graph, on_true: Next) -> Result<(), AllocError>
    ensures { OnOk result (graph_of graph.new
        ≡ with_nodes (graph_of graph.old) (Cond returns_home_is on_true next.Err ∷ [])) }
{
    let test = returns_home(alloc)?;
    graph.add(Node::Cond {
        test,
        on_true,
        on_false: Next::Err,
    })?;
    Ok(())
}

/// The test of a branch; that of any other instruction doesn't hold.
#[tactic(auto, unfolding(decompile_spec::specs::InstructionTerms::branch_test))]
fn test_of(alloc: Global, instruction: &Instr) -> Result<Box<Term>, AllocError>
    ensures { IfOk result (λ test. boxed_term test ≡ branch_test_is instruction.now) }
{
    match *instruction {
        Instr::Branch {
            test,
            left,
            right,
            ..
        } => branch_test(alloc, test, left, right),
        _ => Term::leaf(alloc, Atom::Truth(false)),
    }
}

impl Function<'_> {
    /// Adds the tests of an instruction, each of which continues at the node after it; where one
    /// doesn't hold the run fails.
    fn add_tests(
        &self,
        graph: &mut Graph,
        address: u32,
        tests: Vec<Box<Term>>,
    ) -> Result<(), AllocError>
        ensures { OnOk result (graph_of graph.new
            ≡ with_nodes (graph_of graph.old)
            (asks (setting_of self.now) address 0 (map boxed_term tests.items))) }
    {
        let mut index: usize = 0;
        for test in tests {
            index = plus(index, 1)?;
            let next = self.node(address, index)?;
            graph.add(Node::Cond {
                test,
                on_true: Next::At(next),
                on_false: Next::Err,
            })?;
        }
        Ok(())
    }

    /// Adds an instruction that continues at the next one: its tests, and what it binds.
    fn add_step(&self, alloc: Global, graph: &mut Graph, item: &Item) -> Result<(), AllocError>
        ensures { OnOk result (AddsFlow self.now graph.old graph.new item.now Falls) }
    {
        let tests = access_tests(alloc, self.runs, &item.instruction)?;
        self.add_tests(graph, item.address, tests)?;
        let bindings = effects(alloc, item.address, &item.instruction)?;
        let next = self.onward(item.address);
        graph.add(Node::Basic { bindings, next })?;
        Ok(())
    }

    /// Adds a branch that bounds the index of a table: its test, and the node in which the index is
    /// kept, where it falls through.
    fn add_keeping(
        &self,
        alloc: Global,
        graph: &mut Graph,
        item: &Item,
        target: u32,
    ) -> Result<(), AllocError>
        requires { item.now.keeps ≡ true }
        ensures { OnOk result (AddsFlow self.now graph.old graph.new item.now (Branches target)) }
    {
        let test = test_of(alloc, &item.instruction)?;
        let on_true = self.toward(target);
        let index = self.node(item.address, 1)?;
        graph.add(Node::Cond {
            test,
            on_true,
            on_false: Next::At(index),
        })?;
        let bindings = keeping(alloc, &item.instruction)?;
        let next = self.onward(item.address);
        graph.add(Node::Basic { bindings, next })?;
        Ok(())
    }

    /// Adds a branch.
    fn add_branch(
        &self,
        alloc: Global,
        graph: &mut Graph,
        item: &Item,
        target: u32,
    ) -> Result<(), AllocError>
        ensures { OnOk result (AddsFlow self.now graph.old graph.new item.now (Branches target)) }
    {
        if item.keeps {
            self.add_keeping(alloc, graph, item, target)?;
            return Ok(());
        }
        let test = test_of(alloc, &item.instruction)?;
        let on_true = self.toward(target);
        let on_false = self.onward(item.address);
        graph.add(Node::Cond {
            test,
            on_true,
            on_false,
        })?;
        Ok(())
    }

    /// Adds a call, and its landing node, which continues at the instruction after it; a call of no
    /// multiple of 4 is an error.
    fn add_call(
        &self,
        alloc: Global,
        graph: &mut Graph,
        item: &Item,
        target: u32,
    ) -> Result<(), AllocError>
        ensures { OnOk result (AddsFlow self.now graph.old graph.new item.now (Calls target)) }
    {
        if target.is_multiple_of(4) {
            let callee = graph_number(self.entries, target);
            let inputs = call_inputs(alloc, item.address.wrapping_add(4))?;
            let landing = self.node(item.address, 1)?;
            graph.add(Node::Call {
                callee,
                inputs,
                outputs: Vec::new(alloc),
                landing,
            })?;
            add_plain(alloc, graph, self.onward(item.address))?;
            return Ok(());
        }
        add_plain(alloc, graph, Next::Err)?;
        Ok(())
    }

    /// Adds a tail call: the test of a return, the call, whose callee returns in this function's
    /// place, and its landing node, which returns.
    fn add_tail_call(
        &self,
        alloc: Global,
        graph: &mut Graph,
        item: &Item,
        target: u32,
    ) -> Result<(), AllocError>
        requires { leaves (setting_of self.now) target ≡ true }
        ensures { OnOk result (AddsFlow self.now graph.old graph.new item.now (Jumps target)) }
    {
        let call = self.node(item.address, 1)?;
        add_home(alloc, graph, Next::At(call))?;
        let callee = graph_number(self.entries, target);
        let inputs = tail_inputs(alloc)?;
        let landing = self.node(item.address, 2)?;
        graph.add(Node::Call {
            callee,
            inputs,
            outputs: Vec::new(alloc),
            landing,
        })?;
        add_plain(alloc, graph, Next::Ret)?;
        Ok(())
    }

    /// Adds a jump; out of the range it is a tail call.
    fn add_jump(
        &self,
        alloc: Global,
        graph: &mut Graph,
        item: &Item,
        target: u32,
    ) -> Result<(), AllocError>
        ensures { OnOk result (AddsFlow self.now graph.old graph.new item.now (Jumps target)) }
    {
        if self.leaves(target) {
            self.add_tail_call(alloc, graph, item, target)?;
            return Ok(());
        }
        add_plain(alloc, graph, self.toward(target))?;
        Ok(())
    }

    /// Adds a return.
    fn add_return(&self, alloc: Global, graph: &mut Graph, item: &Item) -> Result<(), AllocError>
        ensures { OnOk result (AddsFlow self.now graph.old graph.new item.now Returns) }
    {
        add_home(alloc, graph, Next::Ret)?;
        Ok(())
    }

    /// Where the index of a table is no index up to this one: on to its next test; after the last
    /// one, an error.
    fn after_index(&self, address: u32, jump: TableJump, n: u32) -> Result<Next, AllocError>
        requires { n < jump.count }
        ensures { IfOk result (λ next. next ≡ tables.after_index (setting_of self.now) address jump
            n) }
    {
        if n + 1 == jump.count {
            return Ok(Next::Err);
        }
        let node = self.node(address, (n + 1) as usize)?;
        Ok(Next::At(node))
    }

    /// Adds the test of an index of a table, which goes to the word at that index.
    fn add_index(
        &self,
        alloc: Global,
        image: &Image<'_>,
        graph: &mut Graph,
        address: u32,
        jump: TableJump,
        n: u32,
    ) -> Result<(), AllocError>
        requires { n < jump.count }
        ensures { OnOk result (graph_of graph.new ≡ with_nodes (graph_of graph.old)
            (tables.index_node (setting_of self.now) image.now address jump n ∷ [])) }
    {
        let test = is_index(alloc, n)?;
        let on_true = self.toward(target(image, jump, n));
        let on_false = self.after_index(address, jump, n)?;
        graph.add(Node::Cond {
            test,
            on_true,
            on_false,
        })?;
        Ok(())
    }

    /// Adds a jump by a table: a test for each index. Without words it is an error.
    fn add_switch(
        &self,
        alloc: Global,
        image: &Image<'_>,
        graph: &mut Graph,
        item: &Item,
        jump: TableJump,
    ) -> Result<(), AllocError>
        ensures { OnOk result (AddsFlow self.now graph.old graph.new item.now
            (Switches (jump_seen image.now jump))) }
    {
        if jump.count == 0 {
            add_plain(alloc, graph, Next::Err)?;
            return Ok(());
        }
        for n in 0..jump.count {
            self.add_index(alloc, image, graph, item.address, jump, n)?;
        }
        Ok(())
    }

    /// Adds an instruction that is an error.
    fn add_error(&self, alloc: Global, graph: &mut Graph, item: &Item) -> Result<(), AllocError>
        ensures links { (target : ℕ) → OnOk result (AddsFlow self.now graph.old graph.new item.now
            (Links target)) }
        ensures stops { OnOk result (AddsFlow self.now graph.old graph.new item.now Stops) }
    {
        add_plain(alloc, graph, Next::Err)?;
        Ok(())
    }

    /// Adds the nodes of an instruction, and the landing node after a call.
    pub(crate) fn add_block(
        &self,
        alloc: Global,
        image: &Image<'_>,
        graph: &mut Graph,
        item: &Item,
    ) -> Result<(), AllocError>
        ensures { OnOk result (AddsBlock self.now graph.old graph.new
            (item_of image.now item.now)) }
    {
        match item.flow {
            Flow::Falls => self.add_step(alloc, graph, item),
            Flow::Branches(target) => self.add_branch(alloc, graph, item, target),
            Flow::Jumps(target) => self.add_jump(alloc, graph, item, target),
            Flow::Calls(target) => self.add_call(alloc, graph, item, target),
            Flow::Returns => self.add_return(alloc, graph, item),
            Flow::Switches(jump) => self.add_switch(alloc, image, graph, item, jump),
            Flow::Links(_) | Flow::Stops => self.add_error(alloc, graph, item),
        }
    }
}
