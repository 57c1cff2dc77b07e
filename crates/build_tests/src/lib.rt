// Tables of calls on builds, with the records and answers that the rules give.
#![tactic(auto)]

#[cfg(test)]
mod asked;
#[cfg(test)]
mod calls;
#[cfg(test)]
mod elsewhere;
#[cfg(test)]
mod refused;
#[cfg(test)]
mod worked;
