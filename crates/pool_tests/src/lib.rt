// Tables of calls on pools, layers and tools, and of first lines. What is expected is worked out from the rules by hand.
#![tactic(auto)]

#[cfg(test)]
mod first_lines;
#[cfg(test)]
mod layered;
#[cfg(test)]
mod pipes;
#[cfg(test)]
mod semaphores;
#[cfg(test)]
mod tools;
#[cfg(test)]
mod walk;
