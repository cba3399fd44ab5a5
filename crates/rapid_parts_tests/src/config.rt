// Tests of who the members are: endpoints, identifiers, tags, cuts and configurations.

mod changes;
mod configurations;
mod cuts;
mod cuts_of_lists;
mod endpoints;
mod hexadecimal;
mod kept;
mod lists;
mod readings;
mod rosters;
mod shared;
mod tags;
mod texts;
