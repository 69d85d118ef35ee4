// Tests of the nodes that have items and no partner: ingress and egress.
mod boundary;
mod egress;
mod ingress;
