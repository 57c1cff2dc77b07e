// Tests of the schedule: each record as bytes and as a line, each way a reading can end, and a whole schedule.
#![tactic(auto)]

#[cfg(test)]
mod tests;
