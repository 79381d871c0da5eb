use std::alloc::{AllocError, Global};

/// In which order variables are decided, and when the search restarts. No contract rests on it.
///
/// The most active variable without value is decided (VSIDS), with the sign that it had last. A
/// heap has those variables that may have no value. The glue of a learnt clause is the number of
/// levels among its literals; the search restarts where the glue of the last clauses is above the
/// average of many.
#[derive(Drop)]
pub struct Order {
    /// By variable.
    activities: Vec<u64>,
    /// By variable: its place in the heap, or [`ABSENT`].
    places: Vec<usize>,
    /// By variable: the conflict at which it was bumped last, or 0.
    bumped: Vec<u64>,
    /// How many variables were ever bumped.
    used: usize,
    /// By variable: the sign that it had last.
    signs: Vec<bool>,
    heap: Vec<usize>,
    count: usize,
    /// What a bump adds.
    step: u64,
    /// The number of the conflict.
    clock: u64,
    /// By level: the conflict in whose learnt clause it was seen last.
    levels: Vec<u64>,
    /// That of the learnt clause so far: its asserting literal has a level of its own.
    glue: u64,
    /// The glue of the last clauses: their average times [`RECENT`] and [`SCALE`].
    recent: u64,
    /// The sum of the glue of so many clauses.
    total: u64,
    counted: u64,
    /// Conflicts since the last restart.
    waited: u64,
    /// How many values were taken back.
    effort: u64,
}

/// The place of a variable that isn't in the heap.
const ABSENT: usize = usize::MAX;

/// What a bump adds at first.
const STEP: u64 = 1 << 20;

/// Activities above it are made smaller, all by so many bits.
const MAX_ACTIVITY: u64 = 1 << 60;

const SHIFT: u32 = 40;

/// A bump adds more by this part after each conflict.
const DECAY: u64 = 19;

/// About how many clauses count as the last ones, and at most how many as many.
const RECENT: u64 = 32;

const MANY: u64 = 8192;

const SCALE: u64 = 1024;

/// Fewer variables than this part of them are few.
const FEW: usize = 8;

/// How many conflicts are between restarts at least.
const PAUSE: u64 = 50;

/// The search restarts where the glue of the last clauses is above the average by this ratio.
const HIGH: u64 = 5;

const LOW: u64 = 4;

impl Order {
    /// The variables in the order of their numbers.
    pub fn new(alloc: Global, variables: usize) -> Result<Order, AllocError> {
        let mut order = Order {
            activities: Vec::new(alloc),
            places: Vec::new(alloc),
            bumped: Vec::new(alloc),
            used: 0,
            signs: Vec::new(alloc),
            heap: Vec::new(alloc),
            count: variables,
            step: STEP,
            clock: 1,
            levels: Vec::new(alloc),
            glue: 1,
            recent: 0,
            total: 0,
            counted: 0,
            waited: 0,
            effort: 0,
        };
        order.add(ABSENT)?;
        for index in 0..variables {
            order.add(index)?;
            order.heap.push(index + 1)?;
        }
        Ok(order)
    }

    /// Adds a variable that has this place in the heap.
    fn add(&mut self, place: usize) -> Result<(), AllocError> {
        self.activities.push(0)?;
        self.places.push(place)?;
        self.bumped.push(0)?;
        self.signs.push(true)?;
        self.levels.push(0)?;
        Ok(())
    }

    fn activity(&self, variable: usize) -> u64 {
        match self.activities.get(variable) {
            Some(activity) => *activity,
            None => 0,
        }
    }

    fn place(&self, variable: usize) -> usize {
        match self.places.get(variable) {
            Some(place) => *place,
            None => ABSENT,
        }
    }

    /// The sign that a variable had last.
    pub fn is_negated(&self, variable: usize) -> bool {
        match self.signs.get(variable) {
            Some(sign) => *sign,
            None => true,
        }
    }

    /// The variable of a place of the heap.
    fn variable_at(&self, place: usize) -> usize {
        match self.heap.get(place) {
            Some(variable) => *variable,
            None => 0,
        }
    }

    fn set_place(&mut self, variable: usize, place: usize) {
        if let Some(slot) = self.places.get_mut(variable) {
            *slot = place;
        }
    }

    /// Puts a variable at a place of the heap.
    fn put(&mut self, place: usize, variable: usize) {
        if let Some(slot) = self.heap.get_mut(place) {
            *slot = variable;
        }
        self.set_place(variable, place);
    }

    /// Whether a variable is decided before another.
    pub fn is_before(&self, variable: usize, other: usize) -> bool {
        let activity = self.activity(variable);
        let other_activity = self.activity(other);
        activity > other_activity || activity == other_activity && variable > other
    }

    /// Moves the variable of a place up in the heap.
    fn raise(&mut self, start: usize) {
        let variable = self.variable_at(start);
        let mut place = start;
        while place > 0 {
            let above = (place - 1) / 2;
            let parent = self.variable_at(above);
            if !self.is_before(variable, parent) {
                break;
            }
            self.put(place, parent);
            place = above;
        }
        self.put(place, variable);
    }

    /// The place below one that has the more active variable.
    fn child(&self, place: usize) -> usize {
        let left = place.saturating_mul(2).saturating_add(1);
        let right = left.saturating_add(1);
        if right < self.count && self.is_before(self.variable_at(right), self.variable_at(left)) {
            right
        } else {
            left
        }
    }

    /// Moves the variable of a place down in the heap.
    fn sink(&mut self, start: usize) {
        let variable = self.variable_at(start);
        let mut place = start;
        for _depth in 0..usize::BITS {
            let below = self.child(place);
            let child = self.variable_at(below);
            if below >= self.count || !self.is_before(child, variable) {
                break;
            }
            self.put(place, child);
            place = below;
        }
        self.put(place, variable);
    }

    /// Takes the most active variable out of the heap.
    pub fn pop(&mut self) -> Option<usize> {
        if self.count == 0 {
            return None;
        }
        let first = self.variable_at(0);
        self.count -= 1;
        let last = self.variable_at(self.count);
        self.put(0, last);
        self.sink(0);
        self.set_place(first, ABSENT);
        Some(first)
    }

    fn set_sign(&mut self, variable: usize, is_negated: bool) {
        if let Some(sign) = self.signs.get_mut(variable) {
            *sign = is_negated;
        }
    }

    /// The variable loses its value, which had this sign.
    pub fn release(&mut self, variable: usize, is_negated: bool) {
        self.effort = self.effort.saturating_add(1);
        self.set_sign(variable, is_negated);
        self.insert(variable);
    }

    /// Puts a variable into the heap, if it isn't there.
    pub fn insert(&mut self, variable: usize) {
        if self.place(variable) == ABSENT && self.count < self.heap.len() {
            let place = self.count;
            self.put(place, variable);
            self.count = place + 1;
            self.raise(place);
        }
    }

    /// Makes all activities smaller.
    fn rescale(&mut self) {
        for activity in &mut self.activities {
            *activity >>= SHIFT;
        }
        self.step >>= SHIFT;
    }

    /// Whether a variable was bumped at this conflict.
    fn was_bumped(&self, variable: usize) -> bool {
        match self.bumped.get(variable) {
            Some(last) => *last == self.clock,
            None => true,
        }
    }

    /// Makes a variable more active, once a conflict.
    pub fn bump(&mut self, variable: usize) {
        if self.was_bumped(variable) {
            return;
        }
        let clock = self.clock;
        if let Some(last) = self.bumped.get_mut(variable) {
            if *last == 0 {
                self.used = self.used.saturating_add(1);
            }
            *last = clock;
        }
        let activity = self.activity(variable).saturating_add(self.step);
        if let Some(slot) = self.activities.get_mut(variable) {
            *slot = activity;
        }
        if activity > MAX_ACTIVITY {
            self.rescale();
        }
        let place = self.place(variable);
        if place != ABSENT {
            self.raise(place);
        }
    }

    /// Whether the search is about a variable: where few were ever bumped, about those alone.
    pub fn is_about(&self, variable: usize) -> bool {
        if self.used.saturating_mul(FEW) >= self.heap.len() {
            return true;
        }
        match self.bumped.get(variable) {
            Some(last) => *last > 0,
            None => false,
        }
    }

    /// How many clauses were learnt.
    pub fn learnt(&self) -> u64 {
        self.clock.saturating_sub(1)
    }

    /// What the search has cost: how many values were taken back.
    pub fn effort(&self) -> u64 {
        self.effort
    }

    /// Whether a level was seen at this conflict.
    fn was_seen(&self, level: usize) -> bool {
        match self.levels.get(level) {
            Some(last) => *last == self.clock,
            None => true,
        }
    }

    /// Counts the level of a literal that is learnt.
    pub fn see_level(&mut self, level: usize) {
        if self.was_seen(level) {
            return;
        }
        let clock = self.clock;
        if let Some(last) = self.levels.get_mut(level) {
            *last = clock;
        }
        self.glue = self.glue.saturating_add(1);
    }

    /// Ends what is counted of a conflict.
    pub fn end_conflict(&mut self) {
        let glue = self.glue;
        self.recent = self.recent.saturating_sub(self.recent / RECENT);
        self.recent = self.recent.saturating_add(glue.saturating_mul(SCALE));
        self.total = self.total.saturating_add(glue);
        self.counted = self.counted.saturating_add(1);
        if self.counted >= MANY {
            self.counted /= 2;
            self.total /= 2;
        }
        self.glue = 1;
        self.clock = self.clock.saturating_add(1);
        self.step = self.step.saturating_add(self.step / DECAY);
    }

    /// Counts a conflict; whether the search restarts now.
    pub fn is_restart(&mut self) -> bool {
        self.waited = self.waited.saturating_add(1);
        let recent = self.recent.saturating_mul(self.counted).saturating_mul(LOW);
        let many = self
            .total
            .saturating_mul(RECENT * SCALE)
            .saturating_mul(HIGH);
        if self.waited < PAUSE || recent <= many {
            return false;
        }
        self.waited = 0;
        true
    }
}
