//! A look at the libraries for what is written and read: the list of errors, messages files, table files, texts for
//! readers, and the lines on grammar files; and at the small libraries, each by itself. The grammar is mostly that of
//! `mh_surface`, and each compared value was worked out by hand.
#![tactic(auto)]

#[cfg(test)]
mod catalogue_and_messages;
#[cfg(test)]
mod chapters;
#[cfg(test)]
mod conflicts;
#[cfg(test)]
mod examined_grammars;
#[cfg(test)]
mod small_rooms;
#[cfg(test)]
mod table_files;
#[cfg(test)]
mod texts;
