#![tactic(auto)]

// Tests: the worked figures, both sides of every range, days of vendors and layers up to the term, and what a caller may build over them.
#[cfg(test)]
mod assembly;
#[cfg(test)]
mod books;
#[cfg(test)]
mod days;
#[cfg(test)]
mod holders;
#[cfg(test)]
mod ranges;
#[cfg(test)]
mod stage;
#[cfg(test)]
mod worked;
