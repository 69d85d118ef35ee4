// Tests of moves: what an operator keeps, put back entry by entry, what a survivor gives while its operator goes on, what a
// newcomer rebuilds of it, and a newcomer's answers.
mod edges;
mod lists;
mod newcomers;
mod operators;
mod passing;
mod put_back;
mod rows;
mod survivor;
